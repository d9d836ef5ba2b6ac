// The small state of the service as words, a row of them for each file; and the replies of its steps as a
// letter and words.
#![tactic(auto)]

mod rows;
mod saying;
mod words;

pub use rows::{ROW, ROWS, WORDS, entry_at, put_file, sides_at};
pub use saying::{SAID, calls_with, grants_of, letter_of, reply_of, say, say_granting};
pub use words::{
    calls_of, calls_past, calls_word, head_word, last_of, mode_of, record_of, record_word, side_of,
    side_word, version_of, waiter_of, with_last,
};
