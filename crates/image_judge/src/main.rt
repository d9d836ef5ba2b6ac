// Judges byte strings as images, for the program `images` of tests/model, which holds the verdicts to its own. What
// is read and what is written, byte by byte, is told at the head of tests/model/src/bin/images/main.rs.
#![tactic(auto)]

ghost use Rattle.std.specs.Prelude.{◌+◌, ◌≤◌, length};

mod judging;

use input::read_to_end;
use judging::{judged, prepared};
use service::Service;
use sizes::Sizes;

// The bytes before each string: three sizes, the store's in two bytes, what comes before the reading, and the string's
// length.
const HEAD: usize = 8;

fn main(rt: HostRuntime) {
    let mut input = input_buffer();
    let content = read_to_end(&mut rt.stdin(), &mut input);
    judge_all(&rt, &input[..content.count]);
    let _ = rt.write_all(b"\n");
}

// The most that is sent in one run.
fn input_buffer() -> [u8; 65536] {
    [0; 65536]
}

// One string after the other, by one service as long as the sizes stay.
fn judge_all(rt: &impl Print, input: &[u8]) {
    let mut sizes = Sizes {
        clients: 0,
        files: 0,
        blocks: 0,
        store: 0,
    };
    let mut service = Service::new(sizes);
    let mut rest = input;
    // Stays: no index is counted: each turn takes its string off the rest.
    while HEAD <= rest.len() {
        let (head, after) = rest.split_at(HEAD);
        let given = sizes_at(head);
        let count = number_at(head, 6);
        if after.len() < count {
            return;
        }
        if given != sizes {
            service = prepared(given);
            sizes = given;
        }
        let (string, more) = after.split_at(count);
        service = judged(rt, service, head[5], string);
        rest = more;
    }
}

fn sizes_at(head: &[u8]) -> Sizes
    requires { 5 ≤ length head.now }
{
    Sizes {
        clients: head[0] as usize,
        files: head[1] as usize,
        blocks: head[2] as usize,
        store: number_at(head, 3),
    }
}

// The number in two bytes, the low byte first.
fn number_at(head: &[u8], at: usize) -> usize
    requires { at + 2 ≤ length head.now }
{
    head[at] as usize + head[at + 1] as usize * 256
}
