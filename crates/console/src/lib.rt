// The command line of the programs `play`, `explain` and `traffic`: standard input, or each file that an argument
// names, is played from a fresh service or from an image. They differ in what they print of a line, and at the end.
#![tactic(auto)]

mod arguments;
mod errors;
mod files;
mod guard;
mod help;
mod host;
mod images;
mod input_loop;
mod inputs;
mod programs;
mod teller;
mod turns;

pub use programs::{explain, play, traffic};
