// A turn of the explainer: a buffer of input is explained, and what is left of it stands at its start for the next.
ghost use Rattle.explaining.specs.Turn.{ExplainsTurn};

use crate::lines::explain_lines;
use crate::noted_service::NotedService;
use playing::Turn;
use sentences::EXPLAINED_ROOM;
use sizes::Sizes;

// Explains the first bytes of the buffer, as many as are filled, and moves what is left of them to its start. If the
// session began with the fresh service, line 1 may choose the sizes.
pub fn explain_turn(
    fresh: bool,
    sizes: Sizes,
    number: u64,
    buffer: &mut [u8],
    filled: usize,
    out: &mut [u8],
    noted: &mut NotedService,
) -> Turn
    ensures { ExplainsTurn fresh sizes number buffer.old filled out.old
        noted.old.service.table noted.old.service.flags
        noted.old.service.stores
        noted.old.ledger
        noted.old.refusals result buffer.new out.new noted.new.service.table noted.new.service.flags
        noted.new.service.stores
        noted.new.ledger
        noted.new.refusals }
{
    let n = filled.min(buffer.len());
    let progress = explain_lines(fresh, sizes, number, &buffer[..n], out, noted);
    progress.end_turn(EXPLAINED_ROOM, out.len(), n, buffer)
}
