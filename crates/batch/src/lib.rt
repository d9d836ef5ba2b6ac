// A batch: one request opens a list of files for one client, as single opens in list order would.
#![tactic(auto)]

mod batch;

pub use batch::{BatchOutcome, MAX_OPENINGS, OpenReply, open_batch};
