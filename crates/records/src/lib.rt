// Versions and client records: the values that both sides of the protocol keep for a file, and what their own
// functions do with them.
#![tactic(auto)]

mod choosing;
mod record;
mod version;

pub use choosing::either;
pub use record::{ClientRecord, Mode};
pub use version::Version;
