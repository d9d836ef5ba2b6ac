// A turn of the counter: a buffer of input is counted, and what is left of it stands at its start for the next.
ghost use Rattle.counting.specs.Turn.{CountsTurn};

use crate::counted_service::CountedService;
use crate::lines::count_lines;
use playing::Turn;
use sizes::Sizes;

// Counts the first bytes of the buffer, as many as are filled, and moves what is left of them to its start. If the sizes
// are settable, line 1 may choose them.
pub fn count_turn(
    settable: bool,
    sizes: Sizes,
    number: u64,
    buffer: &mut [u8],
    filled: usize,
    counted: &mut CountedService,
) -> Turn
    ensures { CountsTurn settable sizes number buffer.old filled counted.old.service.table
        counted.old.service.flags
        counted.old.service.stores
        counted.old.totals result buffer.new counted.new.service.table counted.new.service.flags
        counted.new.service.stores
        counted.new.totals }
{
    let n = filled.min(buffer.len());
    let progress = count_lines(settable, sizes, number, &buffer[..n], counted);
    progress.end_turn(0, 0, n, buffer)
}
