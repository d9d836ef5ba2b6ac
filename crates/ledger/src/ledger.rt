// The ledger as a value, in arrays of the largest sizes.
ghost use Rattle.std.specs.Prelude.{◌≡◌};
ghost use Rattle.ledger.specs.Ledger.{empty_ledger};

use crate::lines::NOTES;
use sizes::{MAX_CELLS, MAX_CLIENTS, MAX_FILES};

// Since which line: first of each file, then of each client.
pub const BEGINNINGS: usize = MAX_FILES + MAX_CLIENTS;

// Lines have numbers from 1; 0 stands for none.
#[derive(Clone, Copy)]
pub struct Ledger {
    // Of each block: the lines of the writes to it that `Lines` has, and their clients.
    pub written: [u64; NOTES],
    pub writers: [u8; NOTES],
    // Of each copy: the line at which it was fetched, or written there.
    pub copied: [u64; MAX_CELLS],
    // Of each file: the line at which the latest open that waits, or waited, began to wait. After them of each client:
    // the line that put it under embargo.
    pub since: [u64; BEGINNINGS],
}

impl Ledger {
    // Nothing is noted yet.
    pub fn new() -> Self
        ensures { result ≡ empty_ledger }
    {
        Ledger {
            written: [0; NOTES],
            writers: [0; NOTES],
            copied: [0; MAX_CELLS],
            since: [0; BEGINNINGS],
        }
    }
}
