// What reading a line gives.
use protocol::Step;

// What stands at an offset of an input that has an LF from there on: the step of the line, if it is one, and the offset
// past its LF.
#[derive(Clone, Copy)]
pub struct Line {
    pub step: Option<Step>,
    pub next: usize,
}
