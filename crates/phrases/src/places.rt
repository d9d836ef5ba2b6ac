// The store: how many blocks are used and reserved, by whom, and what is said of it.
ghost use Rattle.std.specs.Prelude.{ℕ, Bool, ◌+◌, ◌≤◌, ◌<◌, ◌≡◌, false, not, ◌&&◌, length, get_or};
ghost use Rattle.sizes.specs.Sizes.{max_clients, max_files, max_blocks, place, cell, Permitted};
ghost use Rattle.decision.specs.Lists.{count};
ghost use Rattle.service.specs.Space.{any_below, sum_below, dirty_among, used_in, reserved_in, reserves_any};
ghost use Rattle.writer.specs.Buffer.{Wrote};
ghost use Rattle.phrases.specs.Places.{is_in, counts_text, places_text, no_place_text};

use crate::list::put_numbers;
use crate::phrase::{put_block, put_numbered};
use blocks::{cell_of, place_of};
use decision::count_below;
use service::{any_below, sum_of_files};
use sizes::{MAX_CELLS, MAX_CLIENTS, MAX_PLACES, Sizes};
use writer::put_text;

// How many blocks of the file are used.
fn used_on(blocks: usize, file: usize, used: &[bool; MAX_PLACES]) -> usize
    requires blocks_le_max_blocks { blocks ≤ max_blocks }
    requires file_lt_max_files { file < max_files }
    ensures counted { result ≡ count blocks (λ b. get_or used.now (place file b) false) }
    ensures upper_bound { result ≤ max_blocks }
{
    count_below(blocks, |b| used[place_of(file, b)])
}

// How many there are of all files.
fn count_used(sizes: Sizes, used: &[bool; MAX_PLACES]) -> usize
    requires files_le_max_files { sizes.files ≤ max_files }
    requires blocks_le_max_blocks { sizes.blocks ≤ max_blocks }
    ensures { result ≡ used_in sizes used.now }
{
    sum_of_files(sizes.files, |f| used_on(sizes.blocks, f, used))
}

// Whether the block is dirty at a client without embargo.
fn is_dirty(
    clients: usize,
    embargoed: [bool; MAX_CLIENTS],
    file: usize,
    block: usize,
    dirty: &[bool; MAX_CELLS],
) -> bool
    requires clients_le_max_clients { clients ≤ max_clients }
    requires file_lt_max_files { file < max_files }
    requires block_lt_max_blocks { block < max_blocks }
    ensures { result ≡ dirty_among clients (is_in embargoed) dirty.now file block }
{
    any_below(clients, |i| {
        !embargoed[i] & dirty[cell_of(i, file, block)]
    })
}

// How many blocks of the file are reserved: dirty there, and not used.
fn reserved_on(
    sizes: Sizes,
    file: usize,
    used: &[bool; MAX_PLACES],
    embargoed: [bool; MAX_CLIENTS],
    dirty: &[bool; MAX_CELLS],
) -> usize
    requires clients_le_max_clients { sizes.clients ≤ max_clients }
    requires blocks_le_max_blocks { sizes.blocks ≤ max_blocks }
    requires file_lt_max_files { file < max_files }
    ensures counted { result ≡ count sizes.blocks (λ b. not (get_or used.now (place file b) false)
        && dirty_among sizes.clients (is_in embargoed) dirty.now file b) }
    ensures upper_bound { result ≤ max_blocks }
{
    count_below(sizes.blocks, |b| {
        !used[place_of(file, b)] & is_dirty(sizes.clients, embargoed, file, b, dirty)
    })
}

// How many there are of all files.
fn count_reserved(
    sizes: Sizes,
    used: &[bool; MAX_PLACES],
    embargoed: [bool; MAX_CLIENTS],
    dirty: &[bool; MAX_CELLS],
) -> usize
    requires clients_le_max_clients { sizes.clients ≤ max_clients }
    requires files_le_max_files { sizes.files ≤ max_files }
    requires blocks_le_max_blocks { sizes.blocks ≤ max_blocks }
    ensures { result ≡ reserved_in sizes (is_in embargoed) used.now dirty.now }
{
    sum_of_files(
        sizes.files,
        |f| reserved_on(sizes, f, used, embargoed, dirty),
    )
}

// Whether the client has a dirty block of the file that is not used.
fn reserves_on(
    blocks: usize,
    client: usize,
    file: usize,
    used: &[bool; MAX_PLACES],
    dirty: &[bool; MAX_CELLS],
) -> bool
    requires blocks_le_max_blocks { blocks ≤ max_blocks }
    requires client_lt_max_clients { client < max_clients }
    requires file_lt_max_files { file < max_files }
    ensures { result ≡ any_below blocks (λ b. not (get_or used.now (place file b) false)
        && get_or dirty.now (cell client file b) false) }
{
    any_below(blocks, |b| {
        !used[place_of(file, b)] & dirty[cell_of(client, file, b)]
    })
}

// Whether it has one of any file.
fn reserves_any(
    sizes: Sizes,
    client: usize,
    used: &[bool; MAX_PLACES],
    dirty: &[bool; MAX_CELLS],
) -> bool
    requires files_le_max_files { sizes.files ≤ max_files }
    requires blocks_le_max_blocks { sizes.blocks ≤ max_blocks }
    requires client_lt_max_clients { client < max_clients }
    ensures { result ≡ reserves_any sizes used.now dirty.now client }
{
    any_below(
        sizes.files,
        |f| reserves_on(sizes.blocks, client, f, used, dirty),
    )
}

// The size of the store, and how many blocks are used and reserved.
fn put_counts(
    out: &mut [u8],
    at: usize,
    sizes: Sizes,
    used: &[bool; MAX_PLACES],
    embargoed: [bool; MAX_CLIENTS],
    dirty: &[bool; MAX_CELLS],
) -> usize
    requires permitted { Permitted sizes }
    requires at_in_bounds { at + 88 ≤ length out.old }
    ensures wrote { Wrote out.old at
        (counts_text sizes used.now embargoed dirty.now) out.new result }
    ensures upper_bound { result ≤ at + 88 }
{
    let blocks = count_used(sizes, used);
    let reserved = count_reserved(sizes, used, embargoed, dirty);
    let first = put_numbered(out, at, b"places:", sizes.store as u64);
    let second = put_numbered(out, first, b"; used:", blocks as u64);
    put_numbered(out, second, b"; reserved:", reserved as u64)
}

// What is said of the store.
pub fn put_places(
    out: &mut [u8],
    at: usize,
    sizes: Sizes,
    used: &[bool; MAX_PLACES],
    embargoed: [bool; MAX_CLIENTS],
    dirty: &[bool; MAX_CELLS],
) -> usize
    requires permitted { Permitted sizes }
    requires at_in_bounds { at + 279 ≤ length out.old }
    ensures wrote { Wrote out.old at
        (places_text sizes used.now embargoed dirty.now) out.new result }
    ensures upper_bound { result ≤ at + 279 }
{
    let word = put_counts(out, at, sizes, used, embargoed, dirty);
    let list = put_text(out, word, b"; reserved by stations:");
    put_numbers(out, list, sizes.clients, |i| {
        !embargoed[i] & reserves_any(sizes, i, used, dirty)
    })
}

// The refusal of a write for which no place is free.
pub fn put_no_place(
    out: &mut [u8],
    at: usize,
    sizes: Sizes,
    used: &[bool; MAX_PLACES],
    embargoed: [bool; MAX_CLIENTS],
    dirty: &[bool; MAX_CELLS],
    file: usize,
    block: usize,
) -> usize
    requires permitted { Permitted sizes }
    requires at_in_bounds { at + 354 ≤ length out.old }
    ensures wrote { Wrote out.old at
        (no_place_text sizes used.now embargoed dirty.now file block) out.new result }
    ensures upper_bound { result ≤ at + 354 }
{
    let named = put_text(out, at, b"no place is free for");
    let word = put_block(out, named, file, block);
    let places = put_text(out, word, b"; ");
    put_places(out, places, sizes, used, embargoed, dirty)
}
