// The step file: what its lines give. The grammar, the reply lines, the summary and the transcript are definitions,
// in specs/; crate reader has the functions from lines to steps, and crate writer those from replies and tables to
// lines.
#![tactic(auto)]

mod parsed;
mod setting;

pub use parsed::Line;
pub use setting::{NoSizes, Setting};
