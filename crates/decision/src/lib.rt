// What is decided of one file: the kinds of callback, the records of the clients, and the decisions
// over all of them: the state, the callbacks that an open causes, and the permission that a grant gives, as Table 4-1
// of the 1989 paper has them.
#![tactic(auto)]

mod below;
mod callback;
mod kind;
mod permission;
mod state;

pub use below::count_below;
pub use callback::{callback_kind, callbacks_due};
pub use kind::{asks_nothing, invalidates, writes_back};
pub use permission::permission_at_grant;
pub use state::{FileState, Property, has, one_if, record_of, state_of, with_record};
