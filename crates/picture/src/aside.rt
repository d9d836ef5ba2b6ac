// The stations under embargo: since which line, and what is lost of each. Two lent arrays have of each copy of all
// clients and files whether it is dirty, and the line at which it was written.
ghost use Rattle.std.specs.Prelude.{ℕ, ◌+◌, ◌≤◌, ◌<◌, List, [], length};
ghost use Rattle.sizes.specs.Sizes.{max_clients, max_files, max_blocks, Permitted};
ghost use Rattle.blocks.specs.Stores.{lent, dirty_in};
ghost use Rattle.ledger.specs.Ledger.{entered, copied_at};
ghost use Rattle.phrases.specs.Accepted.{losses_on};
ghost use Rattle.writer.specs.Buffer.{Wrote};
ghost use Rattle.picture.specs.Picture.{wasted_text, aside_text, aside_if_text};

use blocks::first_cell;
use phrases::{put_client, put_embargo, put_loss_if, put_text};
use sizes::{MAX_CELLS, Sizes};
use writer::put_byte;

// The client's line, if it is under embargo.
pub fn put_aside_if(
    out: &mut [u8],
    at: usize,
    aside: bool,
    sizes: Sizes,
    dirty: &[bool; MAX_CELLS],
    copied: &[u64; MAX_CELLS],
    client: usize,
    since: u64,
) -> usize
    requires permitted { Permitted sizes }
    requires client_lt_max_clients { client < max_clients }
    requires at_in_bounds { at + 42588 ≤ length out.old }
    ensures wrote { Wrote out.old at
        (aside_if_text aside sizes (lent [] [] [] dirty.now)
        (entered [] [] copied.now []) client since) out.new result }
    ensures upper_bound { result ≤ at + 42588 }
{
    if !aside {
        return at;
    }
    put_aside(out, at, sizes, dirty, copied, client, since)
}

fn put_aside(
    out: &mut [u8],
    at: usize,
    sizes: Sizes,
    dirty: &[bool; MAX_CELLS],
    copied: &[u64; MAX_CELLS],
    client: usize,
    since: u64,
) -> usize
    requires permitted { Permitted sizes }
    requires client_lt_max_clients { client < max_clients }
    requires at_in_bounds { at + 42588 ≤ length out.old }
    ensures wrote { Wrote out.old at
        (aside_text sizes (lent [] [] [] dirty.now) (entered [] [] copied.now []) client since)
        out.new result }
    ensures upper_bound { result ≤ at + 42588 }
{
    let word = put_client(out, at, client);
    let list = put_embargo(out, word, since);
    let losses = put_text(out, list, b"; writes lost:");
    let feed = put_wasted(out, losses, sizes, dirty, copied, client);
    put_byte(out, feed, b'\n')
}

// The client's dirty blocks, by file and block, with the lines at which its copies were written.
fn put_wasted(
    out: &mut [u8],
    at: usize,
    sizes: Sizes,
    dirty: &[bool; MAX_CELLS],
    copied: &[u64; MAX_CELLS],
    client: usize,
) -> usize
    requires permitted { Permitted sizes }
    requires client_lt_max_clients { client < max_clients }
    requires at_in_bounds { at + 42496 ≤ length out.old }
    ensures wrote { Wrote out.old at
        (wasted_text sizes (lent [] [] [] dirty.now) (entered [] [] copied.now []) client)
        out.new result }
    ensures upper_bound { result ≤ at + 42496 }
{
    let mut next = at;
    for file in 0..sizes.files {
        next = put_wasted_on(out, at, next, file, sizes.blocks, dirty, copied, client);
    }
    if next == at {
        return put_text(out, next, b" none");
    }
    next
}

// Those on the file, after what the list has from its start on.
fn put_wasted_on(
    out: &mut [u8],
    start: usize,
    at: usize,
    file: usize,
    blocks: usize,
    dirty: &[bool; MAX_CELLS],
    copied: &[u64; MAX_CELLS],
    client: usize,
) -> usize
    requires file_lt_max_files { file < max_files }
    requires blocks_le_max_blocks { blocks ≤ max_blocks }
    requires client_lt_max_clients { client < max_clients }
    requires at_in_bounds { at + 664 ≤ length out.old }
    ensures by_index { (out₀ told : List ℕ) → Wrote out₀ start told out.old at → Wrote out₀ start
        (losses_on (dirty_in (lent [] [] [] dirty.now) client)
        (copied_at (entered [] [] copied.now []) client) file blocks told)
        out.new result }
    ensures upper_bound { result ≤ at + 664 }
{
    let base = first_cell(client, file);
    let mut next = at;
    for block in 0..blocks {
        next = put_loss_if(
            out,
            start,
            next,
            dirty[base + block],
            file,
            block,
            copied[base + block],
        );
    }
    next
}
