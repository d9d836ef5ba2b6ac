// The four sections, and the whole image. A section's entries are written first, and then their count before them.
ghost use Rattle.std.specs.Prelude.{◌+◌, ◌≤◌, ◌<◌, length};
ghost use Rattle.sizes.specs.Sizes.{max_clients, max_files, max_blocks, Permitted};
ghost use Rattle.writer.specs.Buffer.{Wrote};
ghost use Rattle.image.specs.Bytes.{flat, section};
ghost use Rattle.image.specs.Image.{size_bytes, file_entries, file_opens, open_entries, file_blocks, block_entries};
ghost use Rattle.image.specs.Image.{embargo_entries, image_bytes, image_room};

use crate::contents::Contents;
use crate::entries::{put_block, put_embargo, put_file, put_open};
use crate::numbers::{put_count, put_low};
use protocol::Entry;
use sizes::{MAX_BLOCKS, Sizes};
use writer::put_byte;

// Stays: each section has its own loop and its own function. One function for all would take a closure that is lent the
// buffer, and the clauses on it (that it may be called, that it goes on, what it writes, how much room it takes) are
// longer than the loops.

// The longest image.
pub const IMAGE_ROOM: usize = 8085;

fn put_files(out: &mut [u8], at: usize, sizes: Sizes, contents: &Contents) -> usize
    requires permitted { Permitted sizes }
    requires at_in_bounds { at + 384 ≤ length out.old }
    ensures wrote { Wrote out.old at (flat (file_entries sizes contents.now.files)) out.new result }
    ensures upper_bound { result ≤ at + 384 }
{
    let mut next = at;
    for file in 0..sizes.files {
        next = put_file(out, next, file, contents.files[file], sizes.clients);
    }
    next
}

// The opens of one file.
fn put_file_opens(out: &mut [u8], at: usize, file: usize, entry: Entry, clients: usize) -> usize
    requires clients_le_max_clients { clients ≤ max_clients }
    requires file_bound { file < 256 }
    requires at_in_bounds { at + 40 ≤ length out.old }
    ensures wrote { Wrote out.old at (flat (file_opens clients file entry)) out.new result }
    ensures upper_bound { result ≤ at + 40 }
{
    let mut next = at;
    for client in 0..clients {
        next = put_open(out, next, client, file, entry.records[client]);
    }
    next
}

fn put_opens(out: &mut [u8], at: usize, sizes: Sizes, contents: &Contents) -> usize
    requires permitted { Permitted sizes }
    requires at_in_bounds { at + 2560 ≤ length out.old }
    ensures wrote { Wrote out.old at (flat (open_entries sizes contents.now.files)) out.new result }
    ensures upper_bound { result ≤ at + 2560 }
{
    let mut next = at;
    for file in 0..sizes.files {
        next = put_file_opens(out, next, file, contents.files[file], sizes.clients);
    }
    next
}

// The blocks of one file.
fn put_file_blocks(
    out: &mut [u8],
    at: usize,
    file: usize,
    contents: &Contents,
    each: usize,
) -> usize
    requires each_le_max_blocks { each ≤ max_blocks }
    requires file_lt_max_files { file < max_files }
    requires at_in_bounds { at + 80 ≤ length out.old }
    ensures wrote { Wrote out.old at
        (flat (file_blocks each file contents.now.used contents.now.blocks)) out.new result }
    ensures upper_bound { result ≤ at + 80 }
{
    let mut next = at;
    for block in 0..each {
        let place = file * MAX_BLOCKS + block;
        next = put_block(
            out,
            next,
            file,
            block,
            contents.used[place],
            contents.blocks[place],
        );
    }
    next
}

fn put_blocks(out: &mut [u8], at: usize, sizes: Sizes, contents: &Contents) -> usize
    requires permitted { Permitted sizes }
    requires at_in_bounds { at + 5120 ≤ length out.old }
    ensures wrote { Wrote out.old at
        (flat (block_entries sizes contents.now.used contents.now.blocks)) out.new result }
    ensures upper_bound { result ≤ at + 5120 }
{
    let mut next = at;
    for file in 0..sizes.files {
        next = put_file_blocks(out, next, file, contents, sizes.blocks);
    }
    next
}

fn put_embargoes(out: &mut [u8], at: usize, sizes: Sizes, contents: &Contents) -> usize
    requires permitted { Permitted sizes }
    requires at_in_bounds { at + 8 ≤ length out.old }
    ensures wrote { Wrote out.old at (flat (embargo_entries sizes contents.now.embargoed)) out.new result }
    ensures upper_bound { result ≤ at + 8 }
{
    let mut next = at;
    for client in 0..sizes.clients {
        next = put_embargo(out, next, client, contents.embargoed[client]);
    }
    next
}

fn put_file_section(out: &mut [u8], at: usize, sizes: Sizes, contents: &Contents) -> usize
    requires permitted { Permitted sizes }
    requires at_in_bounds { at + 386 ≤ length out.old }
    ensures wrote { Wrote out.old at (section (file_entries sizes contents.now.files)) out.new result }
    ensures upper_bound { result ≤ at + 386 }
{
    let past = put_files(out, at + 2, sizes, contents);
    put_count(out, at, (past - (at + 2)) / 6);
    past
}

fn put_open_section(out: &mut [u8], at: usize, sizes: Sizes, contents: &Contents) -> usize
    requires permitted { Permitted sizes }
    requires at_in_bounds { at + 2562 ≤ length out.old }
    ensures wrote { Wrote out.old at (section (open_entries sizes contents.now.files)) out.new result }
    ensures upper_bound { result ≤ at + 2562 }
{
    let past = put_opens(out, at + 2, sizes, contents);
    put_count(out, at, (past - (at + 2)) / 5);
    past
}

fn put_block_section(out: &mut [u8], at: usize, sizes: Sizes, contents: &Contents) -> usize
    requires permitted { Permitted sizes }
    requires at_in_bounds { at + 5122 ≤ length out.old }
    ensures wrote { Wrote out.old at
        (section (block_entries sizes contents.now.used contents.now.blocks)) out.new result }
    ensures upper_bound { result ≤ at + 5122 }
{
    let past = put_blocks(out, at + 2, sizes, contents);
    put_count(out, at, (past - (at + 2)) / 10);
    past
}

fn put_embargo_section(out: &mut [u8], at: usize, sizes: Sizes, contents: &Contents) -> usize
    requires permitted { Permitted sizes }
    requires at_in_bounds { at + 10 ≤ length out.old }
    ensures wrote { Wrote out.old at (section (embargo_entries sizes contents.now.embargoed)) out.new result }
    ensures upper_bound { result ≤ at + 10 }
{
    let past = put_embargoes(out, at + 2, sizes, contents);
    put_count(out, at, past - (at + 2));
    past
}

// The four sizes, at the start of the buffer.
fn put_sizes(out: &mut [u8], sizes: Sizes) -> usize
    requires permitted { Permitted sizes }
    requires in_bounds { 5 ≤ length out.old }
    ensures wrote { Wrote out.old 0 (size_bytes sizes) out.new result }
    ensures upper_bound { result ≤ 5 }
{
    let second = put_byte(out, 0, sizes.clients as u8);
    let third = put_byte(out, second, sizes.files as u8);
    let fourth = put_byte(out, third, sizes.blocks as u8);
    put_low::<2>(out, fourth, sizes.store as u64)
}

// The image, from the start of the buffer; the offset past it.
pub fn put_image(out: &mut [u8], sizes: Sizes, contents: &Contents) -> usize
    requires permitted { Permitted sizes }
    requires image_room_in_bounds { image_room ≤ length out.old }
    ensures wrote { Wrote out.old 0
        (image_bytes sizes contents.now.files contents.now.used contents.now.blocks contents.now.embargoed) out.new result }
    ensures upper_bound { result ≤ image_room }
{
    let first = put_sizes(out, sizes);
    let second = put_file_section(out, first, sizes, contents);
    let third = put_open_section(out, second, sizes, contents);
    let fourth = put_block_section(out, third, sizes, contents);
    put_embargo_section(out, fourth, sizes, contents)
}
