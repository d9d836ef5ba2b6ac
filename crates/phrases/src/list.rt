// A list of numbers, written into a buffer.
ghost use Rattle.std.specs.Prelude.{ℕ, Bool, ◌+◌, ◌*◌, ◌<◌, ◌≤◌, ◌≡◌, false, cond, [], length, get_or, max};
ghost use Rattle.sizes.specs.Sizes.{max_clients, max_files};
ghost use Rattle.stepfile.specs.Text.{argument_text};
ghost use Rattle.writer.specs.Buffer.{Wrote};
ghost use Rattle.phrases.specs.Phrase.{list_text};

use sizes::{MAX_CLIENTS, MAX_FILES};
use writer::{put_argument, put_text};

// The numbers below n that pass the test.
// Stays: a loop over the range, here and in the lists of other crates, since each turn needs the offset that the last
// one answered: a fold would hand the buffer and the offset on as a pair, which is no plainer.
pub fn put_numbers<F: Fn(usize) -> bool>(out: &mut [u8], at: usize, n: usize, test: F) -> usize
    requires callable { (i : ℕ) → i < n → F.pre test i }
    requires at_in_bounds { at + max 5 (21 * n) ≤ length out.old }
    ensures wrote { (p : ℕ → Bool) → ((i : ℕ) (b : Bool) → i < n → F.post test i b → b ≡ p i)
        → Wrote out.old at (list_text n p) out.new result }
    ensures upper_bound { result ≤ at + max 5 (21 * n) }
{
    let mut next = at;
    for i in 0..n {
        next = put_number(out, next, i, test(i));
    }
    if next == at {
        return put_text(out, next, b" none");
    }
    next
}

// The number, if it is listed.
fn put_number(out: &mut [u8], at: usize, number: usize, listed: bool) -> usize
    requires { at + 21 ≤ length out.old }
    ensures wrote { Wrote out.old at (cond listed (argument_text number) []) out.new result }
    ensures upper_bound { result ≤ at + 21 }
{
    if listed {
        return put_argument(out, at, number as u64);
    }
    at
}

// The numbers below n whose flag is set, of clients and of files.
pub fn put_list(out: &mut [u8], at: usize, n: usize, flags: [bool; MAX_CLIENTS]) -> usize
    requires n_le_max_clients { n ≤ max_clients }
    requires at_in_bounds { at + 168 ≤ length out.old }
    ensures wrote { Wrote out.old at (list_text n (λ k. get_or flags k false)) out.new result }
    ensures upper_bound { result ≤ at + 168 }
{
    put_numbers(out, at, n, |i| flags[i])
}

pub fn put_opened(out: &mut [u8], at: usize, n: usize, flags: [bool; MAX_FILES]) -> usize
    requires n_le_max_files { n ≤ max_files }
    requires at_in_bounds { at + 1344 ≤ length out.old }
    ensures wrote { Wrote out.old at (list_text n (λ k. get_or flags k false)) out.new result }
    ensures upper_bound { result ≤ at + 1344 }
{
    put_numbers(out, at, n, |i| flags[i])
}
