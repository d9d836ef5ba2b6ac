// The line of one block.
ghost use Rattle.std.specs.Prelude.{◌+◌, ◌≤◌, length};
ghost use Rattle.options.specs.Program.{number_of};
ghost use Rattle.writer.specs.Buffer.{Wrote};
ghost use Rattle.image.specs.Bytes.{entry_if, flat};
ghost use Rattle.unsaved.specs.Unsaved.{program_text, line_text};

use options::Program;
use phrases::{put_client, put_text};
use writer::put_argument;

fn put_program(out: &mut [u8], at: usize, program: Program) -> usize
    requires { at + 9 ≤ length out.old }
    ensures wrote { Wrote out.old at (program_text (number_of program)) out.new result }
    ensures upper_bound { result ≤ at + 9 }
{
    let colon = put_text(out, at, program.name());
    put_text(out, colon, b": ")
}

fn put_line(
    out: &mut [u8],
    at: usize,
    program: Program,
    client: usize,
    file: usize,
    block: usize,
) -> usize
    requires { at + 122 ≤ length out.old }
    ensures wrote { Wrote out.old at (line_text (number_of program) client file block) out.new result }
    ensures upper_bound { result ≤ at + 122 }
{
    let station = put_program(out, at, program);
    let word = put_client(out, station, client);
    let digits = put_text(out, word, b" file");
    let second = put_argument(out, digits, file as u64);
    let number = put_text(out, second, b" block");
    let why = put_argument(out, number, block as u64);
    put_text(out, why, b" is dirty, and not in the image\n")
}

// The line, if the block is dirty.
pub fn put_line_if(
    out: &mut [u8],
    at: usize,
    program: Program,
    dirty: bool,
    client: usize,
    file: usize,
    block: usize,
) -> usize
    requires { at + 122 ≤ length out.old }
    ensures wrote { Wrote out.old at
        (flat (entry_if dirty (line_text (number_of program) client file block))) out.new result }
    ensures upper_bound { result ≤ at + 122 }
{
    if dirty {
        put_line(out, at, program, client, file, block)
    } else {
        at
    }
}
