// The lines of all blocks that the image of a service does not have.
ghost use Rattle.std.specs.Prelude.{◌+◌, ◌≤◌, length};
ghost use Rattle.options.specs.Program.{number_of};
ghost use Rattle.writer.specs.Buffer.{Wrote, WroteIfRoom};
ghost use Rattle.unsaved.specs.Unsaved.{unsaved_text, unsaved_room};

use crate::lines::put_clients;
use options::Program;
use service::Service;

// The room that the lines are given: more than they take.
pub const UNSAVED_ROOM: usize = 499712;

// Writes the lines, and answers the offset past them. Where the buffer has less than UNSAVED_ROOM bytes from the offset
// on, writes nothing and answers the offset.
// Stays: the program is a number, since the clause says what is written for each.
pub fn write_unsaved(out: &mut [u8], at: usize, program: u8, service: Service) -> usize
    ensures wrote_if_room { WroteIfRoom unsaved_room out.old at (unsaved_text program service)
        out.new result }
    ensures upper_bound { result ≤ at + unsaved_room }
{
    if out.len() < UNSAVED_ROOM || out.len() - UNSAVED_ROOM < at {
        return at;
    }
    put_unsaved(out, at, Program::numbered(program), service)
}

fn put_unsaved(out: &mut [u8], at: usize, program: Program, service: Service) -> usize
    requires { at + unsaved_room ≤ length out.old }
    ensures wrote { Wrote out.old at (unsaved_text (number_of program) service) out.new result }
    ensures upper_bound { result ≤ at + unsaved_room }
{
    let sizes = service.sizes.in_force();
    put_clients(out, at, program, sizes, &service.dirty)
}
