// Parts of a reply line: its letter, and its callbacks.
ghost use Rattle.std.specs.Prelude.{◌+◌, ◌≤◌, [], ◌∷◌, length};
ghost use Rattle.sizes.specs.Sizes.{max_clients};
ghost use Rattle.decision.specs.Callback.{call_if, ordered_calls};
ghost use Rattle.stepfile.specs.Line.{calls_text};
ghost use Rattle.writer.specs.Buffer.{Wrote};

use crate::decimal::{put_argument, put_byte, put_decimal};
use sizes::MAX_CLIENTS;

// The room that a line is given: more than any line takes.
pub const LINE_ROOM: usize = 5600;

// A space and the letter of a reply.
// Stays: a byte, which is what is written.
pub fn put_letter(out: &mut [u8], at: usize, letter: u8) -> usize
    requires { at + 2 ≤ length out.old }
    ensures wrote { Wrote out.old at (32 ∷ letter ∷ []) out.new result }
    ensures upper_bound { result ≤ at + 2 }
{
    let next = put_byte(out, at, b' ');
    put_byte(out, next, letter)
}

// The callbacks, in the order in which they go out.
// Stays: a loop of its own beside that of crates/phrases/src/wait.rt: they share the loop alone, and one function of both
// would take a closure of buffer, offset and client, as long as the loop.
pub fn put_calls(out: &mut [u8], at: usize, calls: [u8; MAX_CLIENTS]) -> usize
    requires { at + 336 ≤ length out.old }
    ensures wrote { Wrote out.old at (calls_text (ordered_calls max_clients calls)) out.new result }
    ensures upper_bound { result ≤ at + 336 }
{
    let mut next = at;
    for client in 0..MAX_CLIENTS {
        next = put_call(out, next, client, calls[client]);
    }
    next
}

// A callback, if the kind is one.
// Stays: the kind is a number, as in crates/decision/src/kind.rt; it is printed.
fn put_call(out: &mut [u8], at: usize, client: usize, kind: u8) -> usize
    requires { at + 42 ≤ length out.old }
    ensures wrote { Wrote out.old at (calls_text (call_if client kind)) out.new result }
    ensures upper_bound { result ≤ at + 42 }
{
    match kind {
        0 => at,
        _ => {
            let colon = put_argument(out, at, client as u64);
            let second = put_byte(out, colon, b':');
            put_decimal(out, second, kind as u64)
        }
    }
}
