// The image of the server: its bytes, and how it is written into a lent buffer.
#![tactic(auto)]

mod contents;
mod entries;
mod numbers;
mod sections;
mod writing;

pub use contents::Contents;
pub use sections::{IMAGE_ROOM, put_image};
pub use writing::write_image;
