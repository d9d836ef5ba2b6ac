// The refusals, by their numbers.
ghost use Rattle.std.specs.Prelude.{◌+◌, ◌≤◌, ◌≡◌, length};
ghost use Rattle.ledger.specs.Refusals.{refusal_numbers};
ghost use Rattle.writer.specs.Buffer.{Wrote};
ghost use Rattle.picture.specs.Picture.{numbers_given, refused_text, times_text, refusals_text};

use decision::count_below;
use ledger::REFUSAL_NUMBERS;
use phrases::{put_numbered, put_text};
use writer::{put_argument, put_byte};

// How many numbers were given.
fn count_given(counts: [u64; REFUSAL_NUMBERS]) -> usize
    ensures { result ≡ numbers_given counts }
{
    count_below(REFUSAL_NUMBERS, |which| 0 < counts[which])
}

// The line of a number, if it was given.
fn put_refused(out: &mut [u8], at: usize, number: usize, times: u64) -> usize
    requires { at + 56 ≤ length out.old }
    ensures wrote { Wrote out.old at (refused_text number times) out.new result }
    ensures upper_bound { result ≤ at + 56 }
{
    if times == 0 {
        return at;
    }
    let colon = put_numbered(out, at, b"refused with", number as u64);
    let often = put_byte(out, colon, b':');
    let feed = put_argument(out, often, times);
    put_byte(out, feed, b'\n')
}

// The lines of the numbers, ascending.
fn put_times(out: &mut [u8], at: usize, counts: [u64; REFUSAL_NUMBERS]) -> usize
    requires { at + 1344 ≤ length out.old }
    ensures wrote { Wrote out.old at (times_text counts refusal_numbers) out.new result }
    ensures upper_bound { result ≤ at + 1344 }
{
    let mut next = at;
    for number in 0..REFUSAL_NUMBERS {
        next = put_refused(out, next, number, counts[number]);
    }
    next
}

pub fn put_refusals(out: &mut [u8], at: usize, counts: [u64; REFUSAL_NUMBERS]) -> usize
    requires { at + 1344 ≤ length out.old }
    ensures wrote { Wrote out.old at (refusals_text counts) out.new result }
    ensures upper_bound { result ≤ at + 1344 }
{
    if count_given(counts) == 0 {
        return put_text(out, at, b"nothing was refused\n");
    }
    put_times(out, at, counts)
}
