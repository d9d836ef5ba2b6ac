// The player: its loop over the lines of a buffer, a turn of it, and the session that goes turn by turn from the first
// byte of an input to its summary. The service is one that the caller lends.
#![tactic(auto)]

mod lines;
mod session;
mod setting;
mod turn;

pub use lines::{Progress, play_lines};
pub use session::{Advance, Session};
pub use setting::{choose_sizes, reply_to};
pub use turn::{Turn, play_turn};
