// The stations of one file: who has it open or holds a block of it, and what is told of each. Two lent arrays have the
// flags of the blocks, which are held and which are dirty, of all clients and files.
ghost use Rattle.std.specs.Prelude.{◌+◌, ◌≤◌, ◌<◌, ◌≡◌, [], length};
ghost use Rattle.sizes.specs.Sizes.{max_clients, max_files, max_blocks, Permitted};
ghost use Rattle.blocks.specs.Stores.{lent};
ghost use Rattle.writer.specs.Buffer.{Wrote};
ghost use Rattle.picture.specs.Picture.{is_concerned, concerned, opens_text, copies_text, station_text};
ghost use Rattle.picture.specs.Picture.{station_if_text, stations_text};

use blocks::{count_dirty, first_cell};
use decision::count_below;
use phrases::{put_client, put_either, put_numbered, put_numbers, put_text};
use protocol::{ClientFile, Sides};
use records::ClientRecord;
use sizes::{MAX_CELLS, Sizes};
use writer::put_byte;

// Whether the client has the file open, or holds a block of it.
fn is_concerned(
    sizes: Sizes,
    held: &[bool; MAX_CELLS],
    own: ClientFile,
    client: usize,
    file: usize,
) -> bool
    requires blocks_le_max_blocks { sizes.blocks ≤ max_blocks }
    requires client_lt_max_clients { client < max_clients }
    requires file_lt_max_files { file < max_files }
    ensures { result ≡ is_concerned sizes (lent [] [] held.now []) own client file }
{
    // It counts the flags that it is lent: here those of the blocks held.
    let blocks = count_dirty(sizes.blocks, first_cell(client, file), held);
    own.opens.is_open() | (0 < blocks)
}

// How many of the clients the file concerns.
pub fn count_concerned(sizes: Sizes, held: &[bool; MAX_CELLS], sides: Sides, file: usize) -> usize
    requires permitted { Permitted sizes }
    requires file_lt_max_files { file < max_files }
    ensures { result ≡ concerned sizes (lent [] [] held.now []) sides file }
{
    count_below(sizes.clients, |client| {
        is_concerned(sizes, held, sides.of[client], client, file)
    })
}

// The counts of its own record, and its permission.
fn put_opens(out: &mut [u8], at: usize, opens: ClientRecord) -> usize
    requires { at + 82 ≤ length out.old }
    ensures wrote { Wrote out.old at (opens_text opens) out.new result }
    ensures upper_bound { result ≤ at + 82 }
{
    let word = put_numbered(out, at, b": read opens", opens.readers as u64);
    let may = put_numbered(out, word, b", write opens", opens.writers as u64);
    put_either(out, may, opens.caching, b", may cache", b", may not cache")
}

// The blocks that it holds, and those that are dirty.
fn put_copies(
    out: &mut [u8],
    at: usize,
    sizes: Sizes,
    held: &[bool; MAX_CELLS],
    dirty: &[bool; MAX_CELLS],
    client: usize,
    file: usize,
) -> usize
    requires blocks_le_max_blocks { sizes.blocks ≤ max_blocks }
    requires client_lt_max_clients { client < max_clients }
    requires file_lt_max_files { file < max_files }
    requires at_in_bounds { at + 358 ≤ length out.old }
    ensures wrote { Wrote out.old at
        (copies_text sizes (lent [] [] held.now dirty.now) client file) out.new result }
    ensures upper_bound { result ≤ at + 358 }
{
    let base = first_cell(client, file);
    let list = put_text(out, at, b"; blocks held:");
    let word = put_numbers(out, list, sizes.blocks, |b| held[base + b]);
    let second = put_text(out, word, b"; dirty:");
    put_numbers(out, second, sizes.blocks, |b| dirty[base + b])
}

fn put_station(
    out: &mut [u8],
    at: usize,
    sizes: Sizes,
    held: &[bool; MAX_CELLS],
    dirty: &[bool; MAX_CELLS],
    own: ClientFile,
    client: usize,
    file: usize,
) -> usize
    requires blocks_le_max_blocks { sizes.blocks ≤ max_blocks }
    requires client_lt_max_clients { client < max_clients }
    requires file_lt_max_files { file < max_files }
    requires at_in_bounds { at + 471 ≤ length out.old }
    ensures wrote { Wrote out.old at
        (station_text sizes (lent [] [] held.now dirty.now) own client file)
        out.new result }
    ensures upper_bound { result ≤ at + 471 }
{
    let name = put_text(out, at, b"  ");
    let counts = put_client(out, name, client);
    let copies = put_opens(out, counts, own.opens);
    let feed = put_copies(out, copies, sizes, held, dirty, client, file);
    put_byte(out, feed, b'\n')
}

// The client's line, if the file concerns it.
fn put_station_if(
    out: &mut [u8],
    at: usize,
    sizes: Sizes,
    held: &[bool; MAX_CELLS],
    dirty: &[bool; MAX_CELLS],
    sides: Sides,
    client: usize,
    file: usize,
) -> usize
    requires blocks_le_max_blocks { sizes.blocks ≤ max_blocks }
    requires client_lt_max_clients { client < max_clients }
    requires file_lt_max_files { file < max_files }
    requires at_in_bounds { at + 471 ≤ length out.old }
    ensures wrote { Wrote out.old at
        (station_if_text sizes (lent [] [] held.now dirty.now) sides client file)
        out.new result }
    ensures upper_bound { result ≤ at + 471 }
{
    let own = sides.of[client];
    if is_concerned(sizes, held, own, client, file) {
        return put_station(out, at, sizes, held, dirty, own, client, file);
    }
    at
}

// The clients' lines, ascending.
pub fn put_stations(
    out: &mut [u8],
    at: usize,
    sizes: Sizes,
    held: &[bool; MAX_CELLS],
    dirty: &[bool; MAX_CELLS],
    sides: Sides,
    file: usize,
) -> usize
    requires permitted { Permitted sizes }
    requires file_lt_max_files { file < max_files }
    requires at_in_bounds { at + 3768 ≤ length out.old }
    ensures wrote { Wrote out.old at
        (stations_text sizes (lent [] [] held.now dirty.now) sides file sizes.clients)
        out.new result }
    ensures upper_bound { result ≤ at + 3768 }
{
    let mut next = at;
    for client in 0..sizes.clients {
        next = put_station_if(out, next, sizes, held, dirty, sides, client, file);
    }
    next
}
