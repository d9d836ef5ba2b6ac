// What is said of a report that cannot be true, or not beside one that was accepted before.
ghost use Rattle.std.specs.Prelude.{◌+◌, ◌≤◌, length};
ghost use Rattle.writer.specs.Buffer.{Wrote};
ghost use Rattle.phrases.specs.Clash.{counts_text, says_text, untrue_text, not_both_text};

use crate::phrase::{put_client, put_either, put_file, put_numbered};
use protocol::ClientFile;
use records::ClientRecord;
use writer::put_text;

fn put_counts(out: &mut [u8], at: usize, opens: ClientRecord) -> usize
    requires { at + 63 ≤ length out.old }
    ensures wrote { Wrote out.old at (counts_text opens) out.new result }
    ensures upper_bound { result ≤ at + 63 }
{
    let word = put_numbered(out, at, b" has readers", opens.readers as u64);
    put_numbered(out, word, b", writers", opens.writers as u64)
}

// What a client says of a file.
fn put_says(out: &mut [u8], at: usize, client: usize, side: ClientFile) -> usize
    requires { at + 115 ≤ length out.old }
    ensures wrote { Wrote out.old at (says_text client side) out.new result }
    ensures upper_bound { result ≤ at + 115 }
{
    let opens = side.opens;
    let word = put_client(out, at, client);
    let may = put_counts(out, word, opens);
    let mark = put_either(out, may, opens.caching, b", may cache", b", may not cache");
    put_either(out, mark, side.marked, b", a mark", b", no mark")
}

// The report of the client cannot be true; own is what it says of the file.
pub fn put_untrue(out: &mut [u8], at: usize, file: usize, client: usize, own: ClientFile) -> usize
    requires { at + 171 ≤ length out.old }
    ensures wrote { Wrote out.old at (untrue_text file client own) out.new result }
    ensures upper_bound { result ≤ at + 171 }
{
    let named = put_text(out, at, b"the report on");
    let word = put_file(out, named, file);
    let says = put_text(out, word, b" cannot be true: ");
    put_says(out, says, client, own)
}

// It cannot be true beside what was accepted of the other client.
pub fn put_not_both(
    out: &mut [u8],
    at: usize,
    file: usize,
    client: usize,
    own: ClientFile,
    other: usize,
    accepted: ClientFile,
) -> usize
    requires { at + 294 ≤ length out.old }
    ensures wrote { Wrote out.old at (not_both_text file client own other accepted) out.new result }
    ensures upper_bound { result ≤ at + 294 }
{
    let named = put_text(out, at, b"the reports on");
    let word = put_file(out, named, file);
    let first = put_text(out, word, b" cannot both be true: ");
    let second = put_says(out, first, client, own);
    let says = put_text(out, second, b"; ");
    put_says(out, says, other, accepted)
}
