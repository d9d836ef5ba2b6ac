// The consistency protocol of one file: the types of both sides, what the steps make of each, and the definitions of
// every rule of one file with the theorem that they keep it consistent. Nothing here knows of lists of files or of the
// whole service.
#![tactic(auto)]

mod clash;
mod client;
mod copy;
mod entry;
mod refusal;
mod reply;
mod shared;
mod step;

pub use client::{Accessed, BlockCopy, ClientFile, Sides};
pub use copy::keeps_copy;
pub use entry::{Entry, NOBODY, count_calls};
pub use refusal::{Refusal, refuse_if};
pub use reply::{Grant, Granting, Reply};
pub use shared::SharedFile;
pub use step::{Numbers, Step, asked};
