// The state table: an entry for each file, and the state of a recovery.
use protocol::{Entry, Reply};
use sizes::{MAX_CLIENTS, MAX_FILES};

#[derive(Clone, Copy)]
pub struct Table {
    pub files: [Entry; MAX_FILES],
    pub recovering: bool,
    // The clients that have reported in this recovery.
    pub reported: [bool; MAX_CLIENTS],
    // The clients under embargo. They survive a crash.
    pub embargoed: [bool; MAX_CLIENTS],
}

// The table after a step on all of it, and the reply.
#[derive(Clone, Copy)]
pub struct TableOutcome {
    pub table: Table,
    pub reply: Reply,
}
