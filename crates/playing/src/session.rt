// A session: one input, played to the summary, turn by turn, on a service that the caller lends. The program
// only reads before a turn and writes what the turn left in the output buffer.
ghost use Rattle.std.specs.Prelude.{◌≡◌, ◌≤◌, length};
ghost use Rattle.telling.specs.Session.{closed_by, out_closed};
ghost use Rattle.playing.specs.Lines.{playing};
ghost use Rattle.playing.specs.Session.{start_of, fresh_session, resumed_session, is_told, over_after};
ghost use Rattle.playing.specs.Session.{after_turn, after_close, standing, moved_held, Advances};

use crate::turn::{Turn, play_turn};
use service::HeldService;
use sizes::Sizes;
use telling::fill;
use writer::{SUMMARY_ROOM, write_summary};

// What stands between two turns, beside the held service.
#[derive(Clone, Copy)]
pub struct Session {
    // Line 1 may choose the sizes.
    pub settable: bool,
    pub sizes: Sizes,
    // The number of the next line.
    pub number: u64,
    // The bytes at the start of the buffer that are still to be played.
    pub rest: usize,
    // Whole lines may be among them: the next turn plays on and needs no read.
    pub paused: bool,
    // The input is over.
    pub over: bool,
    // The summary is written.
    pub done: bool,
}

// The session after a turn, and the bytes of the output that the turn wrote.
#[derive(Clone, Copy)]
pub struct Advance {
    pub session: Session,
    pub written: usize,
}

impl Session {
    // Before line 1, with the fresh service held.
    pub fn new() -> Self
        ensures { result ≡ fresh_session }
    {
        start(true, Sizes::default())
    }

    // Before line 1, with a service held that has its sizes.
    pub fn resumed(sizes: Sizes) -> Self
        ensures { result ≡ resumed_session sizes }
    {
        start(false, sizes)
    }

    // Takes a turn. A session that is neither paused nor over wants a read into the buffer after the rest, which gave
    // so many bytes, 0 at the end of the input; otherwise no read is wanted, and the number is not looked at.
    pub fn advance(
        self,
        got: usize,
        buffer: &mut [u8],
        out: &mut [u8],
        service: &mut HeldService,
    ) -> Advance
        ensures { Advances self got buffer.old out.old service.old.table
            service.old.flags
            service.old.stores result
            buffer.new out.new service.new.table service.new.flags
            service.new.stores }
    {
        if self.is_told() {
            return self.close(out, service);
        }
        let over = self.over_after(got);
        let filled = fill(self.paused, buffer, self.rest, got);
        let turn = play_turn(
            self.settable,
            self.sizes,
            self.number,
            buffer,
            filled,
            out,
            service,
        );
        self.after_turn(turn, over)
    }

    // Whether only the last turn is left.
    pub fn is_told(self) -> bool
        ensures { result ≡ is_told self }
    {
        self.over & !self.paused
    }

    // Whether the input is over, once a read that was wanted gave so many bytes.
    pub fn over_after(self, got: usize) -> bool
        ensures { result ≡ over_after self got }
    {
        self.over | (!self.paused & (got == 0))
    }

    // After a turn of a buffer.
    pub fn after_turn(self, turn: Turn, over: bool) -> Advance
        ensures session { result.session ≡ after_turn self turn over }
        ensures written { result.written ≡ turn.written }
    {
        Advance {
            session: Session {
                settable: self.settable,
                sizes: turn.sizes,
                number: turn.number,
                rest: turn.rest,
                paused: turn.paused,
                over,
                done: false,
            },
            written: turn.written,
        }
    }

    // After the last turn, which wrote so many bytes; it is done unless the output had no room for them.
    pub fn after_close(self, done: bool, written: usize) -> Advance
        ensures session { result.session ≡ after_close self done }
        ensures written { result.written ≡ written }
    {
        Advance {
            session: Session {
                settable: self.settable,
                sizes: self.sizes,
                number: self.number,
                rest: 0,
                paused: self.paused,
                over: self.over,
                done,
            },
            written,
        }
    }

    // The last turn: writes the summary.
    fn close(self, out: &mut [u8], service: &HeldService) -> Advance
        ensures moved { moved_held result service.now.table service.now.flags service.now.stores
            ≡ closed_by (playing self.settable)
            (standing self service.now.table service.now.flags service.now.stores) out.old }
        ensures out_after { out.new
            ≡ out_closed (playing self.settable)
            (standing self service.now.table service.now.flags service.now.stores) out.old }
        ensures settable_value { result.session.settable ≡ self.settable }
        ensures written_in_bounds { result.written ≤ length out.old }
    {
        let done = SUMMARY_ROOM <= out.len();
        let written = write_summary(out, 0, self.sizes, service.to_table());
        self.after_close(done, written)
    }
}

// Before line 1.
fn start(settable: bool, sizes: Sizes) -> Session
    ensures { result ≡ start_of settable sizes }
{
    Session {
        settable,
        sizes,
        number: 1,
        rest: 0,
        paused: false,
        over: false,
        done: false,
    }
}
