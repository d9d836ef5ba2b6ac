// A file of the picture, if it is told: its heading, its stations, and the open that waits.
ghost use Rattle.std.specs.Prelude.{◌+◌, ◌≤◌, ◌<◌, ◌≡◌, [], length};
ghost use Rattle.sizes.specs.Sizes.{max_clients, max_files, Permitted};
ghost use Rattle.blocks.specs.Stores.{lent};
ghost use Rattle.writer.specs.Buffer.{Wrote};
ghost use Rattle.picture.specs.Picture.{is_pictured, wait_if_text, file_text, file_if_text};

use crate::heading::put_head;
use crate::station::{count_concerned, put_stations};
use phrases::{put_open_waits, put_text};
use protocol::{Entry, Sides};
use sizes::{MAX_CELLS, Sizes};
use writer::{is_listed, put_byte};

// Whether the file is told.
fn is_pictured(
    sizes: Sizes,
    held: &[bool; MAX_CELLS],
    sides: Sides,
    entry: Entry,
    file: usize,
) -> bool
    requires permitted { Permitted sizes }
    requires file_lt_max_files { file < max_files }
    ensures { result ≡ is_pictured sizes (lent [] [] held.now []) sides entry file }
{
    let stations = count_concerned(sizes, held, sides, file);
    is_listed(entry, sizes.clients) | (0 < stations)
}

// The open that waits, if one does.
fn put_wait_if(
    out: &mut [u8],
    at: usize,
    clients: usize,
    entry: Entry,
    file: usize,
    since: u64,
) -> usize
    requires clients_le_max_clients { clients ≤ max_clients }
    requires at_in_bounds { at + 308 ≤ length out.old }
    ensures wrote { Wrote out.old at (wait_if_text clients entry file since) out.new result }
    ensures upper_bound { result ≤ at + 308 }
{
    if entry.waits(clients) {
        let open = put_text(out, at, b"  ");
        let feed = put_open_waits(out, open, clients, entry, file, since);
        return put_byte(out, feed, b'\n');
    }
    at
}

fn put_lines(
    out: &mut [u8],
    at: usize,
    sizes: Sizes,
    held: &[bool; MAX_CELLS],
    dirty: &[bool; MAX_CELLS],
    sides: Sides,
    entry: Entry,
    file: usize,
    since: u64,
) -> usize
    requires permitted { Permitted sizes }
    requires file_lt_max_files { file < max_files }
    requires at_in_bounds { at + 4185 ≤ length out.old }
    ensures wrote { Wrote out.old at
        (file_text sizes (lent [] [] held.now dirty.now) sides entry file since)
        out.new result }
    ensures upper_bound { result ≤ at + 4185 }
{
    let stations = put_head(out, at, sizes.clients, entry, file);
    let open = put_stations(out, stations, sizes, held, dirty, sides, file);
    put_wait_if(out, open, sizes.clients, entry, file, since)
}

// The lines of the file, if it is told.
pub fn put_file(
    out: &mut [u8],
    at: usize,
    sizes: Sizes,
    held: &[bool; MAX_CELLS],
    dirty: &[bool; MAX_CELLS],
    sides: Sides,
    entry: Entry,
    file: usize,
    since: u64,
) -> usize
    requires permitted { Permitted sizes }
    requires file_lt_max_files { file < max_files }
    requires at_in_bounds { at + 4185 ≤ length out.old }
    ensures wrote { Wrote out.old at
        (file_if_text sizes (lent [] [] held.now dirty.now) sides entry file since)
        out.new result }
    ensures upper_bound { result ≤ at + 4185 }
{
    if is_pictured(sizes, held, sides, entry, file) {
        return put_lines(out, at, sizes, held, dirty, sides, entry, file, since);
    }
    at
}
