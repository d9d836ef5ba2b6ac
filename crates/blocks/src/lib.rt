// The blocks of the server and the clients' copies of them: what opens and answers do to those of one file.
#![tactic(auto)]

mod blocks;
mod stores;

pub use blocks::{cell_of, count_dirty, first_cell, first_place, place_of};
pub use stores::Stores;
