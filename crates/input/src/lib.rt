// Input that is read into a lent buffer, for the programs.
#![tactic(auto)]

mod reading;

pub use reading::{Content, read_after, read_to_end};
