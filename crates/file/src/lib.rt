// The steps on one file, each taken in the file's row of the lent table: opens, closes, flushes and answers; and what is
// done to it where the server forgets a client, and where a client drops what it has. A refused step stores nothing.
#![tactic(auto)]

// Stays: the sizes, the embargo and the recovery as three parameters, since `file_step` and the lists of tests take them
// so, and a struct of them would be taken apart in each clause.

mod answering;
mod closing;
mod flushing;
mod forgetting;
mod granting;
mod opening;
mod refusal;
mod row;

pub use answering::answer;
pub use closing::close;
pub use flushing::flush;
pub use forgetting::{drop_file, forget};
pub use granting::grant_open;
pub use opening::{Response, open};
