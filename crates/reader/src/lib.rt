// Lines of the step file to steps, read where they stand in the input.
#![tactic(auto)]

mod found;
mod line;
mod number;
mod setting;
mod step;

pub use line::{read_at, read_line};
pub use setting::{FirstSetting, is_set, read_first_setting, read_setting};
