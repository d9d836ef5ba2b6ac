// A turn of the explainer's session, which is the player's: one input, explained to the picture, turn by turn, on a service
// with what is noted beside it. The program only reads before a turn and writes what the turn left in the output buffer.
ghost use Rattle.std.specs.Prelude.{◌≡◌, ◌≤◌, length};
ghost use Rattle.telling.specs.Session.{closed_by, out_closed};
ghost use Rattle.explaining.specs.Lines.{explaining};
ghost use Rattle.explaining.specs.Session.{standing, moved_held, Advances};

use crate::noted_service::NotedService;
use crate::turn::explain_turn;
use ledger::Annotated;
use picture::{PICTURE_ROOM, write_picture};
use playing::{Advance, Session};
use telling::fill;

// Takes a turn. A session that is neither paused nor over wants a read into the buffer after the rest, which gave so many
// bytes, 0 at the end of the input; otherwise no read is wanted, and the number is not looked at.
pub fn advance(
    session: Session,
    got: usize,
    buffer: &mut [u8],
    out: &mut [u8],
    noted: &mut NotedService,
) -> Advance
    ensures { Advances session got buffer.old out.old noted.old.service.table noted.old.service.flags
        noted.old.service.stores noted.old.ledger noted.old.refusals result buffer.new out.new
        noted.new.service.table noted.new.service.flags noted.new.service.stores noted.new.ledger noted.new.refusals }
{
    if session.is_told() {
        return close(session, out, noted);
    }
    let over = session.over_after(got);
    let filled = fill(session.paused, buffer, session.rest, got);
    let turn = explain_turn(
        session.settable,
        session.sizes,
        session.number,
        buffer,
        filled,
        out,
        noted,
    );
    session.after_turn(turn, over)
}

// The last turn: writes the picture.
fn close(session: Session, out: &mut [u8], noted: &NotedService) -> Advance
    ensures moved { moved_held result noted.now.service.table noted.now.service.flags noted.now.service.stores
        noted.now.ledger noted.now.refusals
        ≡ closed_by (explaining session.settable)
        (standing session noted.now.service.table noted.now.service.flags noted.now.service.stores
        noted.now.ledger noted.now.refusals)
        out.old }
    ensures out_after { out.new
        ≡ out_closed (explaining session.settable)
        (standing session noted.now.service.table noted.now.service.flags noted.now.service.stores
        noted.now.ledger noted.now.refusals)
        out.old }
    ensures settable_value { result.session.settable ≡ session.settable }
    ensures written_in_bounds { result.written ≤ length out.old }
{
    let service = noted.service.to_service(session.sizes);
    let ledger = noted.ledger;
    let refusals = noted.refusals;
    let state = Annotated {
        service,
        ledger,
        refusals,
    };
    let done = PICTURE_ROOM <= out.len();
    let written = write_picture(out, 0, state);
    session.after_close(done, written)
}
