// The records of a line, lent as a trace.
ghost use Rattle.std.specs.Prelude.{◌≡◌};
ghost use Rattle.trace.specs.Counted.{counted_all};
ghost use Rattle.trace.specs.Number.{Counts};
ghost use Rattle.trace.specs.Records.{records_in};

use crate::adding::add_trace;
use crate::counting::TOTALS;
use crate::tracing::{TRACE, Trace};

// Counts the records of a trace, which are lent to the counting function.
pub fn count_trace(stations: usize, trace: Trace, totals: &mut [u64; TOTALS])
    ensures { (totals.new ≡ counted_all stations (records_in trace) totals.old)
        × Counts stations (records_in trace) totals.old totals.new }
{
    let count = trace.count.min(TRACE);
    add_trace(stations, &trace.records[..count], totals)
}
