// A turn of the counter's session, which is the player's: one input, counted to its totals, turn by turn, on a service and
// totals that the caller lends. The program only reads before a turn and writes what the turn left in the
// output buffer.
ghost use Rattle.std.specs.Prelude.{◌≡◌, ◌≤◌, length};
ghost use Rattle.telling.specs.Session.{closed_by, out_closed};
ghost use Rattle.counting.specs.Lines.{counting};
ghost use Rattle.counting.specs.Session.{standing, moved_held, Advances};

use crate::counted_service::CountedService;
use crate::printed::{TRAFFIC_ROOM, write_traffic};
use crate::turn::count_turn;
use playing::{Advance, Session};
use telling::fill;

// Takes a turn. A session that is neither paused nor over wants a read into the buffer after the rest, which gave so many
// bytes, 0 at the end of the input; otherwise no read is wanted, and the number is not looked at.
pub fn advance(
    session: Session,
    got: usize,
    buffer: &mut [u8],
    out: &mut [u8],
    counted: &mut CountedService,
) -> Advance
    ensures { Advances session got buffer.old out.old counted.old.service.table
        counted.old.service.flags
        counted.old.service.stores
        counted.old.totals result buffer.new out.new counted.new.service.table counted.new.service.flags
        counted.new.service.stores
        counted.new.totals }
{
    if session.is_told() {
        return close(session, out, counted);
    }
    let over = session.over_after(got);
    let filled = fill(session.paused, buffer, session.rest, got);
    let turn = count_turn(
        session.settable,
        session.sizes,
        session.number,
        buffer,
        filled,
        counted,
    );
    session.after_turn(turn, over)
}

// The last turn: writes the totals.
fn close(session: Session, out: &mut [u8], counted: &CountedService) -> Advance
    ensures moved { moved_held result counted.now.service.table counted.now.service.flags
        counted.now.service.stores
        counted.now.totals
        ≡ closed_by (counting session.settable)
        (standing session counted.now.service.table counted.now.service.flags
        counted.now.service.stores
        counted.now.totals)
        out.old }
    ensures out_after { out.new
        ≡ out_closed (counting session.settable)
        (standing session counted.now.service.table counted.now.service.flags
        counted.now.service.stores
        counted.now.totals)
        out.old }
    ensures settable_value { result.session.settable ≡ session.settable }
    ensures written_in_bounds { result.written ≤ length out.old }
{
    let done = TRAFFIC_ROOM <= out.len();
    let written = write_traffic(out, 0, session.sizes, &counted.totals);
    session.after_close(done, written)
}
