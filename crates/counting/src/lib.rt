// The counter: its loop over the lines of a buffer, a turn of it, and the session that goes turn by turn from the first
// byte of an input to its totals. The service and the totals are lent by the caller.
#![tactic(auto)]

mod counted_service;
mod lines;
mod printed;
mod session;
mod turn;

pub use counted_service::CountedService;
pub use lines::count_lines;
pub use printed::{TRAFFIC_ROOM, write_traffic};
pub use session::advance;
pub use turn::count_turn;
