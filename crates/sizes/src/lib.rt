// The sizes of a service: those that are given, those that hold, and the largest, which the arrays have.
#![tactic(auto)]

mod sizes;

pub use sizes::{MAX_BLOCKS, MAX_CELLS, MAX_CLIENTS, MAX_FILES, MAX_PLACES, Sizes, at_most};
