// Phrases that the sentences are made of, written into a buffer at an offset. Each function answers the offset past
// what it wrote.
// Stays: buffer and offset are two parameters, as in crates/writer/src/decimal.rt, which has the reason.
ghost use Rattle.std.specs.Prelude.{◌≡◌, ◌+◌, ◌≤◌, ◌++◌, cond, length, max};
ghost use Rattle.stepfile.specs.Text.{argument_text};
ghost use Rattle.writer.specs.Buffer.{Wrote};
ghost use Rattle.phrases.specs.Phrase.{client_text, file_text, block_text, for_text, mode_by_kind, open_text};
ghost use Rattle.phrases.specs.Phrase.{embargo_text};

use records::Mode;
use writer::{put_argument, put_text};

// A text and a number after it.
pub fn put_numbered(out: &mut [u8], at: usize, text: &[u8], number: u64) -> usize
    requires { at + (length text.now + 21) ≤ length out.old }
    ensures wrote { Wrote out.old at (text.now ++ argument_text number) out.new result }
    ensures upper_bound { result ≤ at + (length text.now + 21) }
{
    let next = put_text(out, at, text);
    put_argument(out, next, number)
}

// One of two texts, by the test.
pub fn put_either(out: &mut [u8], at: usize, test: bool, yes: &[u8], no: &[u8]) -> usize
    requires { at + max (length yes.now) (length no.now) ≤ length out.old }
    ensures wrote { Wrote out.old at (cond test yes.now no.now) out.new result }
    ensures upper_bound { result ≤ at + max (length yes.now) (length no.now) }
{
    if test {
        return put_text(out, at, yes);
    }
    put_text(out, at, no)
}

pub fn put_client(out: &mut [u8], at: usize, client: usize) -> usize
    requires { at + 28 ≤ length out.old }
    ensures wrote { Wrote out.old at (client_text client) out.new result }
    ensures upper_bound { result ≤ at + 28 }
{
    put_numbered(out, at, b"station", client as u64)
}

pub fn put_file(out: &mut [u8], at: usize, file: usize) -> usize
    requires { at + 26 ≤ length out.old }
    ensures wrote { Wrote out.old at (file_text file) out.new result }
    ensures upper_bound { result ≤ at + 26 }
{
    put_numbered(out, at, b" file", file as u64)
}

pub fn put_block(out: &mut [u8], at: usize, file: usize, block: usize) -> usize
    requires { at + 53 ≤ length out.old }
    ensures wrote { Wrote out.old at (block_text file block) out.new result }
    ensures upper_bound { result ≤ at + 53 }
{
    let word = put_file(out, at, file);
    put_numbered(out, word, b" block", block as u64)
}

pub fn put_for(out: &mut [u8], at: usize, mode: Mode) -> usize
    requires { at + 10 ≤ length out.old }
    ensures wrote { Wrote out.old at (for_text mode) out.new result }
    ensures upper_bound { result ≤ at + 10 }
{
    match mode {
        Mode::Read => put_text(out, at, b" for read"),
        Mode::Write => put_text(out, at, b" for write"),
    }
}

// The mode of a step, by its kind.
// Stays: the kind is a number, as in `Numbers` of crate protocol: the clause promises an answer for each number.
pub fn mode_by_kind(kind: u64) -> Mode
    ensures { result ≡ mode_by_kind kind }
{
    match kind {
        1 => Mode::Write,
        3 => Mode::Write,
        5 => Mode::Write,
        _ => Mode::Read,
    }
}

// A client, and what is said of it.
pub fn put_of_client(out: &mut [u8], at: usize, client: usize, text: &[u8]) -> usize
    requires { at + (28 + length text.now) ≤ length out.old }
    ensures wrote { Wrote out.old at (client_text client ++ text.now) out.new result }
    ensures upper_bound { result ≤ at + (28 + length text.now) }
{
    let word = put_client(out, at, client);
    put_text(out, word, text)
}

// A client, what it does, the file, and for what.
pub fn put_at_file(
    out: &mut [u8],
    at: usize,
    client: usize,
    does: &[u8],
    file: usize,
    mode: Mode,
) -> usize
    requires { at + (64 + length does.now) ≤ length out.old }
    ensures wrote { Wrote out.old at
        (client_text client ++ (does.now ++ (file_text file ++ for_text mode))) out.new result }
    ensures upper_bound { result ≤ at + (64 + length does.now) }
{
    let word = put_client(out, at, client);
    let named = put_text(out, word, does);
    let mode_at = put_file(out, named, file);
    put_for(out, mode_at, mode)
}

pub fn put_open(out: &mut [u8], at: usize, mode: Mode, client: usize, file: usize) -> usize
    requires { at + 73 ≤ length out.old }
    ensures wrote { Wrote out.old at (open_text mode client file) out.new result }
    ensures upper_bound { result ≤ at + 73 }
{
    let word = put_client(out, at, client);
    let named = put_text(out, word, b" has");
    let open = put_file(out, named, file);
    let mode_at = put_text(out, open, b" open");
    put_for(out, mode_at, mode)
}

// Since which line a client is under embargo; line 0 stands for none.
// Stays: a number in place of an Option, since the ledger keeps lines in arrays of numbers, of fixed memory, and
// `embargo_text` speaks of line 0.
pub fn put_embargo(out: &mut [u8], at: usize, line: u64) -> usize
    requires { at + 49 ≤ length out.old }
    ensures wrote { Wrote out.old at (embargo_text line) out.new result }
    ensures upper_bound { result ≤ at + 49 }
{
    if line == 0 {
        return put_text(out, at, b" is under embargo, as the image has it");
    }
    put_numbered(out, at, b" is under embargo since line", line)
}
