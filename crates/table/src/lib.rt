// The server's state table, and the steps on all of it: a crash, a report, and the end of a recovery.
#![tactic(auto)]

mod recovery;
mod refusal;
mod sweeping;
mod table;

pub use recovery::{Recovery, RecoveryOutcome, Sweep};
pub use refusal::{end_refusal, report_refusal};
pub use sweeping::{crash_rows, report_rows};
pub use table::{Table, TableOutcome};
