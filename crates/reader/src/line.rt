// Lines of the step file to steps.
ghost use Rattle.std.specs.Prelude.{◌≡◌, ◌==◌, position};
ghost use Rattle.stepfile.specs.Grammar.{parse_line};
ghost use Rattle.stepfile.specs.Input.{read_at, no_step_at};

use crate::step::step_at;
use protocol::Step;
use stepfile::Line;

pub fn read_line(line: &[u8]) -> Option<Step>
    ensures { result ≡ parse_line line.now }
{
    let found = step_at(line, 0)?;
    if found.next < line.len() {
        return None;
    }
    Some(found.value)
}

// The line that starts at the offset. A step is read in one pass; only a line that is none is searched for its LF.
pub fn read_at(input: &[u8], at: usize) -> Option<Line>
    ensures { result ≡ read_at input.now at }
{
    match step_at(input, at) {
        Some(found) if found.next < input.len() && input[found.next] == b'\n' => Some(Line {
            step: Some(found.value),
            next: found.next + 1,
        }),
        _ => no_step_at(input, at),
    }
}

// The line that starts at the offset, which is no step.
pub fn no_step_at(input: &[u8], at: usize) -> Option<Line>
    ensures { result ≡ no_step_at input.now at }
{
    let length = line_feed_in(input.get(at..)?)?;
    Some(Line {
        step: None,
        next: at + length + 1,
    })
}

// How many bytes stand before the first LF.
fn line_feed_in(rest: &[u8]) -> Option<usize>
    ensures { result ≡ position (λ byte. byte == 10) rest.now }
{
    rest.iter().position(|byte| *byte == b'\n')
}
