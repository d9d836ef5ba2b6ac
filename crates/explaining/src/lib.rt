// The explainer: its loop over the lines of a buffer, a turn of it, and the session that goes turn by turn from the first
// byte of an input to its picture. The service, and what is noted beside it, are lent.
#![tactic(auto)]

mod lines;
mod noted_service;
mod session;
mod tell;
mod turn;

pub use lines::explain_lines;
pub use noted_service::NotedService;
pub use session::advance;
pub use turn::explain_turn;
