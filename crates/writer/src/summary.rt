// The summary of the files, written into a buffer.
ghost use Rattle.std.specs.Prelude.{◌+◌, ◌≤◌, ◌≡◌, length};
ghost use Rattle.sizes.specs.Sizes.{max_clients, Permitted, in_force};
ghost use Rattle.stepfile.specs.Summary.{code_in, version_in, is_listed, listed_below};
ghost use Rattle.stepfile.specs.Summary.{heading_text, writer_text, fields_text, file_text, files_text, summary_text};
ghost use Rattle.writer.specs.Buffer.{Wrote, WroteIfRoom, summary_room};

use crate::decimal::{has_room, put_argument, put_byte, put_decimal, put_text};
use decision::{count_below, state_of};
use protocol::Entry;
use sizes::Sizes;
use table::Table;

// The room that the summary is given: more than any summary takes.
pub const SUMMARY_ROOM: usize = 8192;

// Writes the summary, by the sizes in force, and answers the offset past it. Where the buffer has less than
// SUMMARY_ROOM bytes from the offset on, writes nothing and answers the offset.
pub fn write_summary(out: &mut [u8], at: usize, given: Sizes, table: Table) -> usize
    ensures wrote_if_room { WroteIfRoom summary_room out.old at (summary_text (in_force given) table.files)
        out.new result }
    ensures upper_bound { result ≤ at + summary_room }
{
    if !has_room(out, at, SUMMARY_ROOM) {
        return at;
    }
    put_summary(out, at, given.in_force(), table)
}

fn put_summary(out: &mut [u8], at: usize, sizes: Sizes, table: Table) -> usize
    requires permitted { Permitted sizes }
    requires summary_room_in_bounds { at + summary_room ≤ length out.old }
    ensures wrote { Wrote out.old at (summary_text sizes table.files) out.new result }
    ensures upper_bound { result ≤ at + summary_room }
{
    let lines = put_heading(out, at, count_listed(sizes, table));
    put_files(out, lines, sizes, table)
}

// The word "files" and how many are told.
fn put_heading(out: &mut [u8], at: usize, count: u64) -> usize
    requires { at + 27 ≤ length out.old }
    ensures wrote { Wrote out.old at (heading_text count) out.new result }
    ensures upper_bound { result ≤ at + 27 }
{
    let number = put_text(out, at, b"files");
    let feed = put_argument(out, number, count);
    put_byte(out, feed, b'\n')
}

// How many files are told.
fn count_listed(sizes: Sizes, table: Table) -> u64
    requires { Permitted sizes }
    ensures { result ≡ listed_below sizes.clients sizes.files table.files }
{
    count_below(sizes.files, |file| {
        is_listed(table.files[file], sizes.clients)
    }) as u64
}

// A file is told if it is not CLOSED or not at version 1.
pub fn is_listed(entry: Entry, clients: usize) -> bool
    requires { clients ≤ max_clients }
    ensures { result ≡ is_listed clients entry }
{
    let code = code_in(entry, clients);
    match code {
        0 => !entry.version.as_read().is_first(),
        _ => true,
    }
}

fn code_in(entry: Entry, clients: usize) -> u8
    requires { clients ≤ max_clients }
    ensures { result ≡ code_in clients entry }
{
    state_of(entry.records, clients, entry.last).code()
}

pub fn version_in(entry: Entry) -> u32
    ensures { result ≡ version_in entry }
{
    entry.version.as_read().number()
}

// The lines of the files, ascending.
fn put_files(out: &mut [u8], at: usize, sizes: Sizes, table: Table) -> usize
    requires permitted { Permitted sizes }
    requires at_in_bounds { at + 5376 ≤ length out.old }
    ensures wrote { Wrote out.old at (files_text sizes.clients sizes.files table.files)
        out.new result }
    ensures upper_bound { result ≤ at + 5376 }
{
    let mut next = at;
    for file in 0..sizes.files {
        next = put_file(out, next, file, table.files[file], sizes.clients);
    }
    next
}

// The line of a file, if it is told.
fn put_file(out: &mut [u8], at: usize, file: usize, entry: Entry, clients: usize) -> usize
    requires clients_le_max_clients { clients ≤ max_clients }
    requires at_in_bounds { at + 84 ≤ length out.old }
    ensures wrote { Wrote out.old at (file_text clients file entry) out.new result }
    ensures upper_bound { result ≤ at + 84 }
{
    if is_listed(entry, clients) {
        let code = code_in(entry, clients);
        put_fields(out, at, clients, file, code, version_in(entry), entry.last)
    } else {
        at
    }
}

fn put_fields(
    out: &mut [u8],
    at: usize,
    clients: usize,
    file: usize,
    code: u8,
    version: u32,
    last: u8,
) -> usize
    requires { at + 84 ≤ length out.old }
    ensures wrote { Wrote out.old at (fields_text clients file code version last) out.new result }
    ensures upper_bound { result ≤ at + 84 }
{
    let second = put_decimal(out, at, file as u64);
    let third = put_argument(out, second, code as u64);
    let fourth = put_argument(out, third, version as u64);
    let feed = put_writer(out, fourth, clients, last);
    put_byte(out, feed, b'\n')
}

// The last writer, or that there is none.
fn put_writer(out: &mut [u8], at: usize, clients: usize, last: u8) -> usize
    requires { at + 21 ≤ length out.old }
    ensures wrote { Wrote out.old at (writer_text clients last) out.new result }
    ensures upper_bound { result ≤ at + 21 }
{
    if (last as usize) < clients {
        put_argument(out, at, last as u64)
    } else {
        let dash = put_byte(out, at, b' ');
        put_byte(out, dash, b'-')
    }
}
