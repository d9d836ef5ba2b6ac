// Reads into a lent buffer. No contract can say what a read gives; these say how much of the buffer it may be.
ghost use Rattle.std.specs.Prelude.{◌≡◌, ◌+◌, ◌≤◌, length, take, IfOk};

use std::io;
use std::io::Read;

// What was read of an input.
// Stays: no Result, for the bytes that came before a failure are there beside it (`within`, `prefix`).
#[derive(Clone, Copy)]
pub struct Content {
    // How many bytes stand at the start of the buffer.
    pub count: usize,
    // Why the input could not be read to its end, where it could not.
    pub failure: Option<io::Error>,
}

// Reads to the end of the input, or as far as the buffer goes.
pub fn read_to_end(input: &mut impl Read, buffer: &mut [u8]) -> Content
    ensures within { result.count ≤ length buffer.new }
    ensures prefix { result.count ≡ length (take result.count buffer.new) }
{
    let mut count: usize = 0;
    // Stays: each turn goes on by as many bytes as the read gave.
    while count < buffer.len() {
        match read_after(input, buffer, count) {
            Ok(0) => break,
            Ok(more) => count += more,
            Err(error) => {
                return Content {
                    count,
                    failure: Some(error),
                };
            }
        }
    }
    Content {
        count,
        failure: None,
    }
}

// One read into the buffer after so many bytes.
pub fn read_after(input: &mut impl Read, buffer: &mut [u8], count: usize) -> io::Result<usize>
    requires { count ≤ length buffer.old }
    ensures { IfOk result (λ more. count + more ≤ length buffer.new) }
{
    input.read(&mut buffer[count..])
}
