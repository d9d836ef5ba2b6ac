// What is said of an accepted read.
ghost use Rattle.std.specs.Prelude.{◌+◌, ◌≤◌, length};
ghost use Rattle.writer.specs.Buffer.{Wrote};
ghost use Rattle.phrases.specs.Accepted.{own_text, source_text, unwritten_text, written_text, lost_text, origin_text};
ghost use Rattle.phrases.specs.Accepted.{worth_text, read_text};

use crate::phrase::{put_block, put_client, put_either, put_embargo, put_numbered};
use ledger::Told;
use writer::put_text;

// The sentence of an accepted read; aside says whether the client is under embargo, and embargo since which line.
pub fn put_read(
    out: &mut [u8],
    at: usize,
    fresh: bool,
    told: Told,
    aside: bool,
    embargo: u64,
    client: usize,
    file: usize,
    block: usize,
) -> usize
    requires { at + 292 ≤ length out.old }
    ensures wrote { Wrote out.old at (read_text fresh told aside embargo client file block)
        out.new result }
    ensures upper_bound { result ≤ at + 292 }
{
    let comma = put_client(out, at, client);
    let place = put_text(out, comma, b",");
    let source = put_block(out, place, file, block);
    let origin = put_source(out, source, told);
    put_worth(out, origin, fresh, told, aside, embargo)
}

// What the value is worth: of a client under embargo nothing is promised.
fn put_worth(out: &mut [u8], at: usize, fresh: bool, told: Told, aside: bool, embargo: u64) -> usize
    requires { at + 151 ≤ length out.old }
    ensures wrote { Wrote out.old at (worth_text fresh told aside embargo) out.new result }
    ensures upper_bound { result ≤ at + 151 }
{
    if aside {
        let word = put_text(out, at, b"; nothing is promised: it");
        return put_embargo(out, word, embargo);
    }
    put_origin(out, at, fresh, told)
}

// Which copy the value is from.
fn put_source(out: &mut [u8], at: usize, told: Told) -> usize
    requires { at + 59 ≤ length out.old }
    ensures wrote { Wrote out.old at (source_text told) out.new result }
    ensures upper_bound { result ≤ at + 59 }
{
    if told.own {
        return put_own(out, at, told.dirty, told.since);
    }
    put_text(out, at, b": from the server")
}

fn put_own(out: &mut [u8], at: usize, dirty: bool, since: u64) -> usize
    requires { at + 59 ≤ length out.old }
    ensures wrote { Wrote out.old at (own_text dirty since) out.new result }
    ensures upper_bound { result ≤ at + 59 }
{
    let flag = put_text(out, at, b": from its own copy");
    let word = put_either(out, flag, dirty, b", dirty", b"");
    put_numbered(out, word, b", since line", since)
}

// Whose write it is, of which line, and whose later write was lost.
fn put_origin(out: &mut [u8], at: usize, fresh: bool, told: Told) -> usize
    requires { at + 151 ≤ length out.old }
    ensures wrote { Wrote out.old at (origin_text fresh told) out.new result }
    ensures upper_bound { result ≤ at + 151 }
{
    let loss = put_written(out, at, fresh, told);
    put_lost(out, loss, told)
}

fn put_written(out: &mut [u8], at: usize, fresh: bool, told: Told) -> usize
    requires { at + 70 ≤ length out.old }
    ensures wrote { Wrote out.old at (written_text fresh told) out.new result }
    ensures upper_bound { result ≤ at + 70 }
{
    if told.line == 0 {
        return put_unwritten(out, at, fresh, told.lost);
    }
    let writer = put_text(out, at, b"; written by ");
    let word = put_client(out, writer, told.client as usize);
    put_numbered(out, word, b" at line", told.line)
}

fn put_unwritten(out: &mut [u8], at: usize, fresh: bool, lost: u64) -> usize
    requires { at + 21 ≤ length out.old }
    ensures wrote { Wrote out.old at (unwritten_text fresh lost) out.new result }
    ensures upper_bound { result ≤ at + 21 }
{
    if !fresh {
        return put_text(out, at, b"; as the image has it");
    }
    put_either(out, at, lost == 0, b"; never written", b"; as at the start")
}

fn put_lost(out: &mut [u8], at: usize, told: Told) -> usize
    requires { at + 81 ≤ length out.old }
    ensures wrote { Wrote out.old at (lost_text told) out.new result }
    ensures upper_bound { result ≤ at + 81 }
{
    if told.lost == 0 {
        return at;
    }
    let loser = put_text(out, at, b"; the write of ");
    let word = put_client(out, loser, told.loser as usize);
    let end = put_numbered(out, word, b" at line", told.lost);
    put_text(out, end, b" was lost")
}
