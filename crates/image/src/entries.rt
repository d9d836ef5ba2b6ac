// The entries of the four sections, each written only if it is listed.
ghost use Rattle.std.specs.Prelude.{◌+◌, ◌≤◌, ◌<◌, ◌≡◌, cond, [], ◌∷◌, ◌++◌, length};
ghost use Rattle.writer.specs.Buffer.{Wrote};
ghost use Rattle.image.specs.Bytes.{low, flat};
ghost use Rattle.image.specs.Image.{last_read, file_entry, open_bytes, open_entry, block_bytes, block_entry};
ghost use Rattle.image.specs.Image.{embargo_entry};

use crate::numbers::put_low;
use protocol::{Entry, NOBODY};
use records::ClientRecord;
use writer::put_byte;

fn last_read(entry: Entry, clients: usize) -> u8
    ensures { result ≡ last_read clients entry }
{
    if (entry.last as usize) < clients {
        entry.last
    } else {
        NOBODY
    }
}

// A file that is at version 1 and has no last writer is not listed.
pub fn put_file(out: &mut [u8], at: usize, file: usize, entry: Entry, clients: usize) -> usize
    requires file_bound { file < 256 }
    requires at_in_bounds { at + 6 ≤ length out.old }
    ensures wrote { Wrote out.old at (flat (file_entry clients file entry)) out.new result }
    ensures upper_bound { result ≤ at + 6 }
{
    let read = entry.version.as_read();
    let none = clients <= entry.last as usize;
    if read.is_first() & none {
        return at;
    }
    put_file_fields(out, at, file, read.number(), last_read(entry, clients))
}

fn put_file_fields(out: &mut [u8], at: usize, file: usize, version: u32, last: u8) -> usize
    requires file_bound { file < 256 }
    requires at_in_bounds { at + 6 ≤ length out.old }
    ensures wrote { Wrote out.old at (file ∷ (low 4 version ++ (last ∷ []))) out.new result }
    ensures upper_bound { result ≤ at + 6 }
{
    let second = put_byte(out, at, file as u8);
    let third = put_low::<4>(out, second, version as u64);
    put_byte(out, third, last)
}

// A client that has not opened the file is not listed.
pub fn put_open(out: &mut [u8], at: usize, client: usize, file: usize, opens: ClientRecord) -> usize
    requires client_bound { client < 256 }
    requires file_bound { file < 256 }
    requires at_in_bounds { at + 5 ≤ length out.old }
    ensures wrote { Wrote out.old at (flat (open_entry client file opens)) out.new result }
    ensures upper_bound { result ≤ at + 5 }
{
    if opens.is_open() {
        put_open_fields(out, at, client, file, opens)
    } else {
        at
    }
}

fn put_open_fields(
    out: &mut [u8],
    at: usize,
    client: usize,
    file: usize,
    opens: ClientRecord,
) -> usize
    requires client_bound { client < 256 }
    requires file_bound { file < 256 }
    requires at_in_bounds { at + 5 ≤ length out.old }
    ensures wrote { Wrote out.old at (open_bytes client file opens) out.new result }
    ensures upper_bound { result ≤ at + 5 }
{
    let second = put_byte(out, at, client as u8);
    let third = put_byte(out, second, file as u8);
    let fourth = put_byte(out, third, opens.readers);
    let fifth = put_byte(out, fourth, opens.writers);
    put_byte(out, fifth, permission_byte(opens.caching))
}

fn permission_byte(caching: bool) -> u8
    ensures { result ≡ cond caching 1 0 }
{
    if caching { 1 } else { 0 }
}

// A block that is not used is not listed.
pub fn put_block(
    out: &mut [u8],
    at: usize,
    file: usize,
    block: usize,
    used: bool,
    value: u64,
) -> usize
    requires file_bound { file < 256 }
    requires block_bound { block < 256 }
    requires at_in_bounds { at + 10 ≤ length out.old }
    ensures wrote { Wrote out.old at (flat (block_entry file block used value)) out.new result }
    ensures upper_bound { result ≤ at + 10 }
{
    if used {
        put_block_fields(out, at, file, block, value)
    } else {
        at
    }
}

fn put_block_fields(out: &mut [u8], at: usize, file: usize, block: usize, value: u64) -> usize
    requires file_bound { file < 256 }
    requires block_bound { block < 256 }
    requires at_in_bounds { at + 10 ≤ length out.old }
    ensures wrote { Wrote out.old at (block_bytes file block value) out.new result }
    ensures upper_bound { result ≤ at + 10 }
{
    let second = put_byte(out, at, file as u8);
    let third = put_byte(out, second, block as u8);
    put_low::<8>(out, third, value)
}

// A client that is not under embargo is not listed.
pub fn put_embargo(out: &mut [u8], at: usize, client: usize, embargoed: bool) -> usize
    requires client_bound { client < 256 }
    requires at_in_bounds { at + 1 ≤ length out.old }
    ensures wrote { Wrote out.old at (flat (embargo_entry client embargoed)) out.new result }
    ensures upper_bound { result ≤ at + 1 }
{
    if embargoed {
        put_byte(out, at, client as u8)
    } else {
        at
    }
}
