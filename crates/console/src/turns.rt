// What every program does at a turn: one read into the input buffer, one write of what the turn left in the output.
ghost use Rattle.std.specs.Prelude.{◌+◌, ◌≤◌, length, IfOk};

use input::read_after;
use std::io;
use std::io::Read;

// How a play ended.
#[derive(Clone, Copy)]
pub struct End {
    // Why the input could not be read, and why standard output did not take all that was written, where so.
    pub read_failure: Option<io::Error>,
    pub write_failure: Option<io::Error>,
    // The whole input is played, and its summary, picture or table is written.
    pub done: bool,
}

// A large buffer, so that what is done once a turn counts for little.
pub fn input_buffer() -> [u8; 262144] {
    [0; 262144]
}

// One read into the buffer after the rest; no read, and 0, if none is wanted.
pub fn read_if(
    wanted: bool,
    input: &mut impl Read,
    buffer: &mut [u8],
    rest: usize,
) -> io::Result<usize>
    requires { rest ≤ length buffer.old }
    ensures { IfOk result (λ more. rest + more ≤ length buffer.new) }
{
    if !wanted {
        return Ok(0);
    }
    read_after(input, buffer, rest)
}

// Writes the first bytes of out to standard output.
pub fn write(rt: &impl Print, out: &[u8], count: usize) -> io::Result<()>
    requires { count ≤ length out.now }
{
    rt.write_all(&out[..count])
}
