// The numbers of a step, read where they stand in the input.
ghost use Rattle.std.specs.Prelude.{◌≡◌, true, cond, ◌+◌, ◌-◌, ◌*◌, ◌^◌, ◌≤◌, IfSome, IsNone, length, drop};
ghost use Rattle.std.specs.Option.{ForSome, ForNone};
ghost use Rattle.stepfile.specs.Grammar.{is_digit, digits_on, numeral, argument};
ghost use Rattle.reader.specs.Offsets.{found_in};

use crate::found::Found;
use decision::one_if;

// A space and a number.
pub fn argument_at(s: &[u8], at: usize) -> Option<Found<u64>>
    ensures { argument (drop at s.now) ≡ found_in s.now result }
{
    if *s.get(at)? != b' ' {
        return None;
    }
    numeral_at(s, at + 1)
}

fn numeral_at(s: &[u8], at: usize) -> Option<Found<u64>>
    ensures { numeral (drop at s.now) ≡ found_in s.now result }
{
    let first = *s.get(at)?;
    if first == b'0' {
        return Some(Found {
            value: 0,
            next: at + 1,
        });
    }
    if !is_digit(first) {
        return None;
    }
    digits_from(s, at + 1, u64::from(first - b'0'))
}

// A space and a number of one digit, read with no test of the length. What is not found may still be a number.
pub fn digit_at(s: &[u8], at: usize) -> Option<Found<u64>>
    requires { at + 3 ≤ length s.now }
    ensures s_value { (IsNone result → ⊥) → argument (drop at s.now) ≡ found_in s.now result }
    ensures by_index { IfSome result (λ found. found.next ≡ at + 2) }
{
    if s[at] != b' ' {
        return None;
    }
    let digit = s[at + 1];
    if !is_digit(digit) {
        return None;
    }
    if is_digit(s[at + 2]) {
        return None;
    }
    Some(Found {
        value: u64::from(digit - b'0'),
        next: at + 2,
    })
}

// The same of one or two digits. How many there are is computed: a test of it would be predicted wrong too often.
pub fn two_digits_at(s: &[u8], at: usize) -> Option<Found<u64>>
    requires { at + 4 ≤ length s.now }
    ensures s_value { (IsNone result → ⊥) → argument (drop at s.now) ≡ found_in s.now result }
    ensures by_index { IfSome result (λ found. found.next ≤ at + 3) }
{
    if s[at] != b' ' {
        return None;
    }
    let first = s[at + 1];
    if !is_digit(first) {
        return None;
    }
    let second = s[at + 2];
    let more = one_if(is_digit(second));
    if u64::from(first - b'0') < more as u64 {
        return None;
    }
    let next = at + 2 + more;
    if is_digit(s[next]) {
        return None;
    }
    Some(Found {
        value: number_of(first, second),
        next,
    })
}

// The number of two digits, or of the first alone if the second byte is none.
fn number_of(first: u8, second: u8) -> u64
    requires { is_digit first ≡ true }
    ensures { result ≡ cond (is_digit second) ((first - 48) * 10 + (second - 48)) (first - 48) }
{
    let tens = u64::from(first - b'0');
    if is_digit(second) {
        tens * 10 + u64::from(second - b'0')
    } else {
        tens
    }
}

fn is_digit(byte: u8) -> bool
    ensures { result ≡ is_digit byte }
{
    byte.is_ascii_digit()
}

// The digits that follow, after those that give the number so far.
fn digits_from(s: &[u8], from: usize, so_far: u64) -> Option<Found<u64>>
    ensures { digits_on so_far (drop from s.now) ≡ found_in s.now result }
{
    let mut value = so_far;
    for i in from..s.len() {
        let byte = s[i];
        if !is_digit(byte) {
            return Some(Found { value, next: i });
        }
        value = with_digit(value, byte)?;
    }
    Some(Found {
        value,
        next: s.len(),
    })
}

// The number with one more digit, if it is not too large.
fn with_digit(value: u64, byte: u8) -> Option<u64>
    requires { is_digit byte ≡ true }
    ensures more { ForSome result (λ sum. sum ≡ value * 10 + (byte - 48)) }
    ensures over { ForNone result (2 ^ 64 ≤ value * 10 + (byte - 48)) }
{
    value.checked_mul(10)?.checked_add(u64::from(byte - b'0'))
}
