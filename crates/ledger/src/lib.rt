// The ledger: which line wrote what each client reads, and refusals, counted; and both beside the service.
#![tactic(auto)]

mod annotated;
mod ledger;
mod lines;
mod note;
mod refusals;
mod told;

pub use annotated::Annotated;
pub use ledger::{BEGINNINGS, Ledger};
pub use lines::{Lines, NOTES};
pub use refusals::{REFUSAL_NUMBERS, count_refusal};
pub use told::Told;
