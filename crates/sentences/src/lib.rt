// What is said of each line: definitions, in specs/, and the functions that write it into a lent buffer.
#![tactic(auto)]

mod clash;
mod explained;
mod forgotten;
mod refused;
mod scene;
mod sentence;

pub use explained::{EXPLAINED_ROOM, explain_setting, explain_step};
pub use scene::{is_aside, keep_before};
