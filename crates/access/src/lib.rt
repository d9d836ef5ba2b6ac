// Reads and writes of one block, on the lent blocks and copies.
#![tactic(auto)]

// Stays: the sizes, the embargo and the recovery as three parameters, since `block_step` and the lists of tests take them
// so, and a struct of them would be taken apart in each clause.

mod access;
mod refusal;

pub use access::{read_block, write_block};
