// What bytes hold, if they are an image: entries, blocks, which of them are used, and embargoes. Numbers are wrapped
// into the arrays, and nothing is tested.
ghost use Rattle.std.specs.Prelude.{ℕ, List, ◌+◌, ◌*◌, ◌≤◌, ◌<◌, ◌≡◌, take, drop};
ghost use Rattle.restore.specs.Decoded.{number_at, section_in, placed, with_file, put_file, record_of};
ghost use Rattle.restore.specs.Decoded.{with_open, put_open, put_block, put_used, put_embargo};
ghost use Rattle.sizes.specs.Sizes.{max_places};
ghost use Rattle.restore.specs.Decoded.{place_of, decoded_files, decoded_blocks, decoded_used, decoded_embargoes};

use crate::numbers::{byte_at, eight_at, four_at, two_at};
use image::Contents;
use protocol::Entry;
use records::{ClientRecord, Version};
use sizes::{MAX_BLOCKS, MAX_CLIENTS, MAX_FILES, MAX_PLACES};

// Puts the entries of the section that begins at the offset in a state, one after the other: `put` puts the one that
// stands at an offset.
fn fold_section<T, F: Fn(&[u8], usize, &mut T)>(
    bytes: &[u8],
    at: usize,
    width: usize,
    state: &mut T,
    put: F,
)
    requires at_bound { at ≤ 2000000 }
    requires width_bound { width ≤ 10 }
    requires may_be_called { (part : _) (next : ℕ) (before : _) → next ≤ 9000000 → F.pre put part next before }
    ensures { (step : List ℕ → T → T)
        → ((part : _) (next : ℕ) (before after : _) → F.post put part next before tt after
        → after.now ≡ step (take width (drop next part.now)) before.now)
        → state.new ≡ placed step (section_in width (drop at bytes.now)) state.old }
{
    let count = two_at(bytes, at) as usize;
    for k in 0..count {
        put(bytes, at + 2 + width * k, state);
    }
}

// The entry of a file with the version and the last writer that stand at the offset.
fn with_file(bytes: &[u8], at: usize, mut entry: Entry) -> Entry
    requires { at ≤ 9000000 }
    ensures { result ≡ with_file (take 6 (drop at bytes.now)) entry }
{
    entry.version = Version::numbered(four_at(bytes, at + 1) as u32);
    entry.last = byte_at(bytes, at + 5);
    entry
}

// Puts that of the section of files that stands at the offset in the entries.
fn put_file(bytes: &[u8], at: usize, files: &mut [Entry; MAX_FILES])
    requires { at ≤ 9000000 }
    ensures { files.new ≡ put_file (take 6 (drop at bytes.now)) files.old }
{
    let file = byte_at(bytes, at) as usize % MAX_FILES;
    files[file] = with_file(bytes, at, files[file]);
}

// The record of an open that stands at the offset.
fn record_at(bytes: &[u8], at: usize) -> ClientRecord
    requires { at ≤ 9000000 }
    ensures { result ≡ record_of (take 5 (drop at bytes.now)) }
{
    let readers = byte_at(bytes, at + 2);
    let writers = byte_at(bytes, at + 3);
    let caching = 0 < byte_at(bytes, at + 4);
    ClientRecord {
        readers,
        writers,
        caching,
    }
}

// The entry of a file with the open that stands at the offset.
fn with_open(bytes: &[u8], at: usize, mut entry: Entry) -> Entry
    requires { at ≤ 9000000 }
    ensures { result ≡ with_open (take 5 (drop at bytes.now)) entry }
{
    let client = byte_at(bytes, at) as usize % MAX_CLIENTS;
    entry.records[client] = record_at(bytes, at);
    entry
}

// Puts that of the section of opens that stands at the offset in the entries.
fn put_open(bytes: &[u8], at: usize, files: &mut [Entry; MAX_FILES])
    requires { at ≤ 9000000 }
    ensures { files.new ≡ put_open (take 5 (drop at bytes.now)) files.old }
{
    let file = byte_at(bytes, at + 1) as usize % MAX_FILES;
    files[file] = with_open(bytes, at, files[file]);
}

// The place of the block that stands at the offset.
fn place_at(bytes: &[u8], at: usize) -> usize
    requires { at ≤ 9000000 }
    ensures value { result ≡ place_of (take 10 (drop at bytes.now)) }
    ensures upper_bound { result < max_places }
{
    let file = byte_at(bytes, at) as usize % MAX_FILES;
    let block = byte_at(bytes, at + 1) as usize % MAX_BLOCKS;
    file * MAX_BLOCKS + block
}

// Puts that of the section of blocks that stands at the offset in the blocks.
fn put_block(bytes: &[u8], at: usize, blocks: &mut [u64; MAX_PLACES])
    requires { at ≤ 9000000 }
    ensures { blocks.new ≡ put_block (take 10 (drop at bytes.now)) blocks.old }
{
    let place = place_at(bytes, at);
    blocks[place] = eight_at(bytes, at + 2);
}

// Puts that of the section of blocks that stands at the offset in the used blocks: each that is listed is used.
fn put_used(bytes: &[u8], at: usize, used: &mut [bool; MAX_PLACES])
    requires { at ≤ 9000000 }
    ensures { used.new ≡ put_used (take 10 (drop at bytes.now)) used.old }
{
    let place = place_at(bytes, at);
    used[place] = true;
}

// Puts that of the section of embargoes that stands at the offset in the embargoes.
fn put_embargo(bytes: &[u8], at: usize, embargoed: &mut [bool; MAX_CLIENTS])
    requires { at ≤ 9000000 }
    ensures { embargoed.new ≡ put_embargo (take 1 (drop at bytes.now)) embargoed.old }
{
    let client = byte_at(bytes, at) as usize % MAX_CLIENTS;
    embargoed[client] = true;
}

// The offset past the section of entries of so many bytes that begins at the offset.
fn past_section(bytes: &[u8], at: usize, width: usize) -> usize
    requires at_bound { at ≤ 1400000 }
    requires width_bound { width ≤ 10 }
    ensures value { result ≡ at + (2 + width * number_at 2 bytes.now at) }
    ensures upper_bound { result ≤ at + 655352 }
{
    let count = two_at(bytes, at) as usize;
    at + (2 + width * count)
}

// What the bytes hold.
pub fn decode(bytes: &[u8]) -> Contents
    ensures files_held { result.files ≡ decoded_files bytes.now }
    ensures used_held { result.used ≡ decoded_used bytes.now }
    ensures blocks_held { result.blocks ≡ decoded_blocks bytes.now }
    ensures embargoes_held { result.embargoed ≡ decoded_embargoes bytes.now }
{
    let fresh = Entry::fresh();
    let mut contents = Contents {
        files: [fresh; MAX_FILES],
        used: [false; MAX_PLACES],
        blocks: [0; MAX_PLACES],
        embargoed: [false; MAX_CLIENTS],
    };
    let second = past_section(bytes, 5, 6);
    let third = past_section(bytes, second, 5);
    let fourth = past_section(bytes, third, 10);
    fold_section(bytes, 5, 6, &mut contents.files, put_file);
    fold_section(bytes, second, 5, &mut contents.files, put_open);
    fold_section(bytes, third, 10, &mut contents.used, put_used);
    fold_section(bytes, third, 10, &mut contents.blocks, put_block);
    fold_section(bytes, fourth, 1, &mut contents.embargoed, put_embargo);
    contents
}
