// One file at both sides.
use crate::client::Sides;
use crate::entry::Entry;

// The server's entry of a file, and the clients' sides of it.
#[derive(Clone, Copy)]
pub struct SharedFile {
    pub entry: Entry,
    pub sides: Sides,
}
