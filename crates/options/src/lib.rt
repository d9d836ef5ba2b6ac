// What the arguments of the programs mean: definitions, in specs/, and the functions that read them; and the
// programs.
#![tactic(auto)]

mod options;
mod program;

pub use options::{Act, Argument, Request, argument_of};
pub use program::Program;
