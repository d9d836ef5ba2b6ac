// Bytes and numbers, written into a buffer at an offset. Each function answers the offset past what it wrote.
// Stays: buffer and offset are two parameters and the next offset is the answer, in place of a cursor that borrows the
// buffer. Tried on a function that makes one and writes two bytes: the check left its clause on the buffer open, since what
// the buffer holds once the cursor is let go has a name of Rattle's own alone. No answer by hand was tried.
ghost use Rattle.std.specs.Prelude.{◌+◌, ◌*◌, ◌/◌, ◌%◌, ◌≤◌, ◌<◌, ◌≡◌, cond, [], ◌∷◌, leb, length, set};
ghost use Rattle.stepfile.specs.Text.{argument_text};
ghost use Rattle.stepfile.specs.Text.{decimal as decimal_text};
ghost use Rattle.writer.specs.Buffer.{Wrote};
ghost use Rattle.writer.specs.Digits.{four_text, eight_text, four_bytes};

use decision::one_if;

// Whether the buffer has so many bytes from the offset on.
pub fn has_room(out: &[u8], at: usize, room: usize) -> bool
    ensures { result ≡ leb (at + room) (length out.now) }
{
    room <= out.len() && at <= out.len() - room
}

pub fn put_byte(out: &mut [u8], at: usize, byte: u8) -> usize
    requires { at < length out.old }
    ensures wrote { Wrote out.old at (byte ∷ []) out.new result }
    ensures upper_bound { result ≤ at + 1 }
{
    out[at] = byte;
    at + 1
}

pub fn put_text(out: &mut [u8], at: usize, text: &[u8]) -> usize
    requires { at + length text.now ≤ length out.old }
    ensures wrote { Wrote out.old at text.now out.new result }
    ensures upper_bound { result ≤ at + length text.now }
{
    let end = at + text.len();
    out[at..end].copy_from_slice(text);
    end
}

// A number in decimal: eight digits at a time after the first ones. The first are told apart by comparisons, so that no
// loop runs for each digit.
pub fn put_decimal(out: &mut [u8], at: usize, n: u64) -> usize
    requires { at + 20 ≤ length out.old }
    ensures wrote { Wrote out.old at (decimal_text n) out.new result }
    ensures upper_bound { result ≤ at + 20 }
{
    if n < 100000000 {
        return put_to_eight(out, at, n);
    }
    if n < 10000000000000000 {
        let second = put_to_eight(out, at, n / 100000000);
        return put_eight(out, second, n % 100000000);
    }
    let second = put_to_four(out, at, n / 10000000000000000);
    let third = put_eight(out, second, n / 100000000 % 100000000);
    put_eight(out, third, n % 100000000)
}

// A number of so many digits at most.
fn put_to_eight(out: &mut [u8], at: usize, n: u64) -> usize
    requires at_in_bounds { at + 8 ≤ length out.old }
    requires n_bound { n < 100000000 }
    ensures wrote { Wrote out.old at (decimal_text n) out.new result }
    ensures upper_bound { result ≤ at + 8 }
{
    if n < 10000 {
        return put_to_four(out, at, n);
    }
    let second = put_to_four(out, at, n / 10000);
    put_four(out, second, n % 10000)
}

// Two to four digits are stored one by one, a zero in front under the digit after it: a test of how many there are would
// be predicted wrong too often.
fn put_to_four(out: &mut [u8], at: usize, n: u64) -> usize
    requires at_in_bounds { at + 4 ≤ length out.old }
    requires n_bound { n < 10000 }
    ensures wrote { Wrote out.old at (decimal_text n) out.new result }
    ensures upper_bound { result ≤ at + 4 }
{
    if n < 10 {
        return put_byte(out, at, digit(n));
    }
    let bytes = four_bytes(n);
    let second = put_leading(out, at, low_byte(bytes), 999 < n);
    let third = put_leading(out, second, low_byte(bytes / 256), 99 < n);
    let fourth = put_byte(out, third, low_byte(bytes / 65536));
    put_byte(out, fourth, low_byte(bytes / 16777216))
}

// Stores a digit in front and answers the offset of the next: past it if it stays, else the same, so that the next is
// stored over it.
fn put_leading(out: &mut [u8], at: usize, front: u8, stays: bool) -> usize
    requires { at < length out.old }
    ensures out_after { out.new ≡ set out.old at front }
    ensures value { result ≡ at + cond stays 1 0 }
    ensures upper_bound { result ≤ at + 1 }
{
    out[at] = front;
    at + one_if(stays)
}

// The last eight or four digits of a number, zeros in front included.
fn put_eight(out: &mut [u8], at: usize, n: u64) -> usize
    requires at_in_bounds { at + 8 ≤ length out.old }
    requires n_bound { n < 100000000 }
    ensures wrote { Wrote out.old at (eight_text n) out.new result }
    ensures upper_bound { result ≤ at + 8 }
{
    let second = put_four(out, at, n / 10000);
    put_four(out, second, n % 10000)
}

fn put_four(out: &mut [u8], at: usize, n: u64) -> usize
    requires at_in_bounds { at + 4 ≤ length out.old }
    requires n_bound { n < 10000 }
    ensures wrote { Wrote out.old at (four_text n) out.new result }
    ensures upper_bound { result ≤ at + 4 }
{
    let bytes = four_bytes(n);
    let second = put_byte(out, at, low_byte(bytes));
    let third = put_byte(out, second, low_byte(bytes / 256));
    let fourth = put_byte(out, third, low_byte(bytes / 65536));
    put_byte(out, fourth, low_byte(bytes / 16777216))
}

// The bytes of four digits in one number, so that they are stored at once.
fn four_bytes(n: u64) -> u64
    requires { n < 10000 }
    ensures { result ≡ four_bytes n }
{
    pairs_of(n) * 256 - tens_of(n) * 2559 + 808464432
}

// The first two of four digits and the last two, each pair a number with 16 bits to itself.
fn pairs_of(n: u64) -> u64
    requires { n < 10000 }
    ensures { result ≡ n / 100 + 65536 * (n % 100) }
{
    n * 65536 - n / 100 * 6553599
}

// The tens of both pairs, by one multiplication: 103 / 1024 is a tenth closely enough.
fn tens_of(n: u64) -> u64
    requires { n < 10000 }
    ensures { result ≡ n / 100 / 10 + 65536 * (n % 100 / 10) }
{
    let tenths = pairs_of(n) * 103 / 1024;
    tenths % 16 + tenths / 65536 % 16 * 65536
}

fn low_byte(n: u64) -> u8
    ensures { result ≡ n % 256 }
{
    (n % 256) as u8
}

// The byte of a digit.
fn digit(d: u64) -> u8
    requires { d < 10 }
    ensures { result ≡ 48 + d }
{
    (48 + d) as u8
}

// A space and a number.
pub fn put_argument(out: &mut [u8], at: usize, n: u64) -> usize
    requires { at + 21 ≤ length out.old }
    ensures wrote { Wrote out.old at (argument_text n) out.new result }
    ensures upper_bound { result ≤ at + 21 }
{
    let next = put_byte(out, at, b' ');
    put_decimal(out, next, n)
}
