// A lent trace, counted.
ghost use Rattle.std.specs.Prelude.{◌≡◌};
ghost use Rattle.trace.specs.Counted.{counted_all};
ghost use Rattle.trace.specs.Number.{Counts};

use crate::counting::{TOTALS, add_record};
use crate::record::TraceRecord;

// Counts every record of the trace.
pub fn add_trace(stations: usize, trace: &[TraceRecord], totals: &mut [u64; TOTALS])
    ensures { (totals.new ≡ counted_all stations trace.now totals.old)
        × Counts stations trace.now totals.old totals.new }
{
    for &one in trace {
        add_record(stations, one, totals);
    }
}
