// The phrases and sentences that are said of a step: definitions, in specs/, and the functions that write each of them
// into a lent buffer.
#![tactic(auto)]

mod clash;
mod done;
mod grant;
mod list;
mod pending;
mod phrase;
mod places;
mod read;
mod refusal;
mod restart;
mod wait;

pub use clash::{put_not_both, put_untrue};
pub use done::{put_answer, put_done};
pub use grant::put_grant;
pub use list::{put_list, put_numbers, put_opened};
pub use pending::{put_missing, put_open_waits, put_still};
pub use phrase::{mode_by_kind, put_client, put_either, put_embargo, put_numbered};
pub use places::{put_no_place, put_places};
pub use read::put_read;
pub use refusal::put_refusal;
pub use restart::{put_loss_if, put_losses};
pub use wait::{put_state, put_wait};
pub use writer::put_text;
