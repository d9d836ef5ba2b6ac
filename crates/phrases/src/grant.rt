// What is said of a grant.
ghost use Rattle.std.specs.Prelude.{◌+◌, ◌≤◌, ◌++◌, length};
ghost use Rattle.records.specs.Version.{number_of};
ghost use Rattle.protocol.specs.Client.{keeps_blocks};
ghost use Rattle.stepfile.specs.Text.{argument_text};
ghost use Rattle.writer.specs.Buffer.{Wrote};
ghost use Rattle.phrases.specs.Accepted.{kept_text, terms_text, grant_text};

use crate::phrase::{put_either, put_numbered, put_open};
use protocol::{ClientFile, Grant};
use records::{Mode, Version};
use writer::put_text;

// The open of the client is granted; own is its side of the file before.
pub fn put_grant(
    out: &mut [u8],
    at: usize,
    mode: Mode,
    grant: Grant,
    own: ClientFile,
    client: usize,
    file: usize,
) -> usize
    requires { at + 176 ≤ length out.old }
    ensures wrote { Wrote out.old at (grant_text mode grant own client file) out.new result }
    ensures upper_bound { result ≤ at + 176 }
{
    let terms = put_open(out, at, mode, client, file);
    put_terms(out, terms, mode, grant, own)
}

fn put_terms(out: &mut [u8], at: usize, mode: Mode, grant: Grant, own: ClientFile) -> usize
    requires { at + 103 ≤ length out.old }
    ensures wrote { Wrote out.old at (terms_text mode grant own) out.new result }
    ensures upper_bound { result ≤ at + 103 }
{
    let may = put_version(out, at, b" at version", grant.latest);
    let copy = put_either(
        out,
        may,
        grant.caching,
        b" and may cache",
        b" and may not cache",
    );
    put_copy(out, copy, mode, grant, own)
}

// A text and the number of the version after it.
fn put_version(out: &mut [u8], at: usize, text: &[u8], version: Version) -> usize
    requires { at + (length text.now + 21) ≤ length out.old }
    ensures wrote { Wrote out.old at (text.now ++ argument_text (number_of version)) out.new result }
    ensures upper_bound { result ≤ at + (length text.now + 21) }
{
    put_numbered(out, at, text, version.number() as u64)
}

// Whether the copy is kept or dropped.
fn put_copy(out: &mut [u8], at: usize, mode: Mode, grant: Grant, own: ClientFile) -> usize
    requires { at + 53 ≤ length out.old }
    ensures wrote { Wrote out.old at
        (kept_text (keeps_blocks mode grant own) own.label) out.new result }
    ensures upper_bound { result ≤ at + 53 }
{
    put_kept(out, at, own.keeps_blocks(mode, grant), own.label)
}

fn put_kept(out: &mut [u8], at: usize, keep: bool, label: Version) -> usize
    requires { at + 53 ≤ length out.old }
    ensures wrote { Wrote out.old at (kept_text keep label) out.new result }
    ensures upper_bound { result ≤ at + 53 }
{
    if label.is_none() {
        return put_text(out, at, b"; it had no copy");
    }
    let fate = put_version(out, at, b"; its copy of version", label);
    put_either(out, fate, keep, b" is kept", b" is dropped")
}
