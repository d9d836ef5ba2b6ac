// Replies and the summary to lines, written into a buffer.
#![tactic(auto)]

mod decimal;
mod reply;
mod said;
mod summary;

pub use decimal::{has_room, put_argument, put_byte, put_text};
pub use reply::LINE_ROOM;
pub use said::{put_said, write_said};
pub use summary::{SUMMARY_ROOM, is_listed, version_in, write_summary};
