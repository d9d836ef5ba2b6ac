// A turn of the player: a buffer of input is played, and what is left of it stands at its start for the next.
ghost use Rattle.std.specs.Prelude.{◌≡◌, ◌≤◌, length, drop};
ghost use Rattle.std.proofs.Math.Seq.{paste};
ghost use Rattle.playing.specs.Turn.{turn_after, PlaysTurn};

use crate::lines::{Progress, play_lines};
use service::HeldService;
use sizes::Sizes;
use telling::{can_tell, kept_of, move_down};
use writer::LINE_ROOM;

// What a turn leaves.
#[derive(Clone, Copy)]
pub struct Turn {
    pub sizes: Sizes,
    // The number of the next line.
    pub number: u64,
    // The bytes that stand at the start of the buffer for the next turn, and those of the output that were written.
    pub rest: usize,
    pub written: usize,
    // Whole lines may be left: the output had no room for another reply line, or there are no numbers left.
    pub paused: bool,
}

// Plays the first bytes of the buffer, as many as are filled, and moves what is left of them to its start. If the sizes
// are settable, line 1 may choose them.
pub fn play_turn(
    settable: bool,
    sizes: Sizes,
    number: u64,
    buffer: &mut [u8],
    filled: usize,
    out: &mut [u8],
    service: &mut HeldService,
) -> Turn
    ensures { PlaysTurn settable sizes number buffer.old filled out.old
        service.old.table service.old.flags
        service.old.stores result
        buffer.new out.new service.new.table service.new.flags
        service.new.stores }
{
    let n = filled.min(buffer.len());
    let progress = play_lines(settable, sizes, number, &buffer[..n], out, service);
    progress.end_turn(LINE_ROOM, out.len(), n, buffer)
}

impl Progress {
    // The end of a turn that went so far, with n bytes to tell, in an output of so much room of which another line needs
    // some: what is left of the buffer moves to its start.
    pub fn end_turn(self, need: usize, room: usize, n: usize, buffer: &mut [u8]) -> Turn
        requires used_in_bounds { self.used ≤ n }
        requires n_in_bounds { n ≤ length buffer.old }
        ensures value { result ≡ turn_after self need room n }
        ensures buffer_after { buffer.new ≡ paste buffer.old 0 (drop self.used buffer.old) result.rest }
    {
        let can = can_tell(need, room, self.written, self.number);
        let rest = kept_of(can, n - self.used);
        move_down(buffer, self.used, rest);
        Turn {
            sizes: self.sizes,
            number: self.number,
            rest,
            written: self.written,
            paused: !can,
        }
    }
}
