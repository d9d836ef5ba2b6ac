// What an image does not have, told block by block: definitions, in specs/, and the functions that write the lines into
// a lent buffer.
#![tactic(auto)]

mod line;
mod lines;
mod writing;

pub use writing::{UNSAVED_ROOM, write_unsaved};
