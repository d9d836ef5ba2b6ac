// What an image holds of a server.
use protocol::Entry;
use sizes::{MAX_CLIENTS, MAX_FILES, MAX_PLACES};

#[derive(Clone, Copy)]
pub struct Contents {
    pub files: [Entry; MAX_FILES],
    // Whether each block is used, and the blocks, at the places that they have in the store.
    pub used: [bool; MAX_PLACES],
    pub blocks: [u64; MAX_PLACES],
    pub embargoed: [bool; MAX_CLIENTS],
}
