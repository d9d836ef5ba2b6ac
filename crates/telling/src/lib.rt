// What every loop that tells lines does: whether another line can be told, and what a turn does with its buffer. And
// the laws of lines, turns, sessions and runs, for any kind of state.
#![tactic(auto)]

mod lines;
mod turn;

pub use lines::can_tell;
pub use turn::{fill, kept_of, least, move_down};
