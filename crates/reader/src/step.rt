// A step, read where it stands in the input: its word and its numbers.
ghost use Rattle.std.specs.Prelude.{◌≡◌, ℕ, ◌+◌, ◌*◌, ◌≤◌, true, IfSome, IsNone, OnSome, length, get_or, drop};
ghost use Rattle.stepfile.specs.Grammar.{Shape, whole, taking, one};
ghost use Rattle.stepfile.specs.Grammar.{shaped, step as step_on, argument};
ghost use Rattle.reader.specs.Offsets.{found_in, pair_in, triple_in, MapsTo};

use crate::found::Found;
use crate::number::{argument_at, digit_at, two_digits_at};
use protocol::Step;
use records::Mode;

// The words, as two bytes of ASCII.
const OR: u64 = 0x4f52;

const OW: u64 = 0x4f57;

const CR: u64 = 0x4352;

const CW: u64 = 0x4357;

const AN: u64 = 0x414e;

const RD: u64 = 0x5244;

const FL: u64 = 0x464c;

const WR: u64 = 0x5752;

const XX: u64 = 0x5858;

const RP: u64 = 0x5250;

const EN: u64 = 0x454e;

const BT: u64 = 0x4254;

const EM: u64 = 0x454d;

const LF: u64 = 0x4c46;

// The room that a short step is given, up to its value: a word, three numbers of at most two digits with a space
// before each, and the byte that follows.
const SHORT_ROOM: usize = 12;

// A step at an offset. Nearly all are short; what is not read as a short one is read number by number.
pub fn step_at(s: &[u8], at: usize) -> Option<Found<Step>>
    ensures { step_on (drop at s.now) ≡ found_in s.now result }
{
    if s.len() < SHORT_ROOM {
        return long_at(s, at);
    }
    if s.len() - SHORT_ROOM < at {
        return long_at(s, at);
    }
    // Stays: with `or_else` or a `match` here a step takes 5 to 15 percent more time.
    let short = begun_at::<true>(s, at);
    if short.is_none() {
        return long_at(s, at);
    }
    short
}

// Any step.
fn long_at(s: &[u8], at: usize) -> Option<Found<Step>>
    ensures { step_on (drop at s.now) ≡ found_in s.now result }
{
    if s.len() < 2 {
        return None;
    }
    if s.len() - 2 < at {
        return None;
    }
    begun_at::<false>(s, at)
}

// A step after whose word there is room. A short one is read with no test of the length: its client and block have one
// digit, and its file has at most two. What is not found may still be a step that is not short.
fn begun_at<const SHORT: bool>(s: &[u8], at: usize) -> Option<Found<Step>>
    requires word { at + 2 ≤ length s.now }
    requires room { SHORT ≡ true → at + 12 ≤ length s.now }
    ensures { (SHORT ≡ true → IsNone result → ⊥) → step_on (drop at s.now) ≡ found_in s.now result }
{
    let from = at + 2;
    match word_at(s, at) {
        OR => step_of(pair_at::<SHORT>(s, from), |n| open(Mode::Read, n)),
        OW => step_of(pair_at::<SHORT>(s, from), |n| open(Mode::Write, n)),
        CR => step_of(pair_at::<SHORT>(s, from), |n| close(Mode::Read, n)),
        CW => step_of(pair_at::<SHORT>(s, from), |n| close(Mode::Write, n)),
        AN => step_of(
            pair_at::<SHORT>(s, from),
            |(client, file)| Step::Answer { client, file },
        ),
        RD => step_of(
            triple_at::<SHORT>(s, from),
            |(client, file, block)| Step::Read {
                client,
                file,
                block,
            },
        ),
        FL => step_of(
            triple_at::<SHORT>(s, from),
            |(client, file, block)| Step::Flush {
                client,
                file,
                block,
            },
        ),
        WR => write_from(s, triple_at::<SHORT>(s, from)),
        XX => Some(Found {
            value: Step::Crash,
            next: from,
        }),
        RP => step_of(
            one_at::<SHORT>(s, from),
            |client| Step::Report {
                client: client as usize,
            },
        ),
        EN => Some(Found {
            value: Step::End,
            next: from,
        }),
        BT => step_of(
            one_at::<SHORT>(s, from),
            |client| Step::Restart {
                client: client as usize,
            },
        ),
        EM => step_of(
            pair_at::<SHORT>(s, from),
            |(client, file)| Step::Embargo { client, file },
        ),
        LF => step_of(
            one_at::<SHORT>(s, from),
            |client| Step::Lift {
                client: client as usize,
            },
        ),
        _ => None,
    }
}

fn open(mode: Mode, numbers: (usize, usize)) -> Step
    ensures { result ≡ Step.Open mode numbers.0 numbers.1 }
{
    let (client, file) = numbers;
    Step::Open { mode, client, file }
}

fn close(mode: Mode, numbers: (usize, usize)) -> Step
    ensures { result ≡ Step.Close mode numbers.0 numbers.1 }
{
    let (client, file) = numbers;
    Step::Close { mode, client, file }
}

// The two bytes of a word as one number.
fn word_at(s: &[u8], at: usize) -> u64
    requires { at + 2 ≤ length s.now }
    ensures { result ≡ get_or s.now at 0 * 256 + get_or s.now (at + 1) 0 }
{
    u64::from(s[at]) * 256 + u64::from(s[at + 1])
}

// The step that the numbers after its word make.
fn step_of<N, F: FnOnce(N) -> Step>(numbers: Option<Found<N>>, make: F) -> Option<Found<Step>>
    requires { F.IsAlwaysCallable make }
    ensures { MapsTo (F.post make) numbers result }
{
    let Found { value, next } = numbers?;
    Some(Found {
        value: make(value),
        next,
    })
}

// The value follows the other numbers.
fn write_from(s: &[u8], numbers: Option<Found<(usize, usize, usize)>>) -> Option<Found<Step>>
    ensures { triple_in s.now (λ a b c. one (Step.Write a b c)) numbers ≡ found_in s.now result }
{
    let Found {
        value: (client, file, block),
        next,
    } = numbers?;
    let Found { value, next } = argument_at(s, next)?;
    Some(Found {
        value: Step::Write {
            client,
            file,
            block,
            value,
        },
        next,
    })
}

// A client or a block; a short one has one digit.
fn one_at<const SHORT: bool>(s: &[u8], at: usize) -> Option<Found<u64>>
    requires { SHORT ≡ true → at + 3 ≤ length s.now }
    ensures s_value { (SHORT ≡ true → IsNone result → ⊥) → argument (drop at s.now) ≡ found_in s.now result }
    ensures by_index { SHORT ≡ true → IfSome result (λ found. found.next ≡ at + 2) }
{
    if SHORT {
        digit_at(s, at)
    } else {
        argument_at(s, at)
    }
}

// A file; a short one has at most two digits.
fn file_at<const SHORT: bool>(s: &[u8], at: usize) -> Option<Found<u64>>
    requires { SHORT ≡ true → at + 4 ≤ length s.now }
    ensures s_value { (SHORT ≡ true → IsNone result → ⊥) → argument (drop at s.now) ≡ found_in s.now result }
    ensures by_index { SHORT ≡ true → IfSome result (λ found. found.next ≤ at + 3) }
{
    if SHORT {
        two_digits_at(s, at)
    } else {
        argument_at(s, at)
    }
}

// A client and a file.
fn pair_at<const SHORT: bool>(s: &[u8], at: usize) -> Option<Found<(usize, usize)>>
    requires { SHORT ≡ true → at + 6 ≤ length s.now }
    ensures by_index { (f : ℕ → ℕ → Shape) → (SHORT ≡ true → IsNone result → ⊥)
        → shaped (taking (λ a. taking (f a))) (drop at s.now) ≡ pair_in s.now f result }
    ensures by_index_2 { SHORT ≡ true → IfSome result (λ found. found.next ≤ at + 5) }
{
    let client = one_at::<SHORT>(s, at)?;
    let file = file_at::<SHORT>(s, client.next)?;
    Some(Found {
        value: (client.value as usize, file.value as usize),
        next: file.next,
    })
}

// A client, a file and a block.
fn triple_at<const SHORT: bool>(s: &[u8], at: usize) -> Option<Found<(usize, usize, usize)>>
    requires { SHORT ≡ true → at + 8 ≤ length s.now }
    ensures { (f : ℕ → ℕ → ℕ → Shape) → (SHORT ≡ true → IsNone result → ⊥)
        → shaped (taking (λ a. taking (λ b. taking (f a b)))) (drop at s.now)
        ≡ triple_in s.now f result }
{
    let pair = pair_at::<SHORT>(s, at)?;
    let (client, file) = pair.value;
    let block = one_at::<SHORT>(s, pair.next)?;
    Some(Found {
        value: (client, file, block.value as usize),
        next: block.next,
    })
}
