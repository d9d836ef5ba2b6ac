// The traffic of a session: what happened at a station, as a record; the records of a line, lent as a trace; and the totals
// in which a trace is counted.
#![tactic(auto)]

mod adding;
mod counting;
mod lending;
mod record;
mod tracing;

pub use adding::add_trace;
pub use counting::{COLUMNS, TOTALS, add_record, count};
pub use lending::count_trace;
pub use record::{TraceKind, TraceOutcome, TraceRecord};
pub use tracing::{TRACE, Trace, serves_itself, trace_of};
