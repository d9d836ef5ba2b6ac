// The two sides together: the server with its state table and blocks, the clients with their copies, and the steps
// that the service takes. A service can be held as words, and takes its steps there.
#![tactic(auto)]

mod clashing;
mod crashing;
mod embargo;
mod flags;
mod held_service;
mod holding;
mod outcome;
mod recovering;
mod service;
mod space;
mod spending;
mod step;
mod sums;
mod taking;

pub use clashing::{accepted_in, clash_file, clashes_with};
pub use flags::FLAGS;
pub use held_service::HeldService;
pub use holding::held_used;
pub use outcome::Outcome;
pub use service::{Server, Service};
pub use sums::{any_below, sum_of_files};
