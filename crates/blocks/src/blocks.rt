// The blocks of one file: dropped from a client's copies, and sent to the server. So many of them are in force; those
// past it stay.
ghost use Rattle.std.specs.Prelude.{◌≡◌, false, ◌+◌, ◌%◌, ◌≤◌, ◌<◌, get_or};
ghost use Rattle.sizes.specs.Sizes.{max_clients, max_files, max_blocks, max_places, max_cells};
ghost use Rattle.sizes.specs.Sizes.{first_place, place, first_cell, cell};
ghost use Rattle.decision.specs.Lists.{count as tally};

use decision::one_if;
use sizes::{MAX_BLOCKS, MAX_CELLS, MAX_CLIENTS, MAX_FILES, MAX_PLACES};

// Where the client's copies of the file begin; the numbers are wrapped, so that there is always room for a file.
pub fn first_cell(client: usize, file: usize) -> usize
    ensures value { result ≡ first_cell (client % max_clients) (file % max_files) }
    ensures max_blocks_bound { result + max_blocks ≤ max_cells }
{
    (file % MAX_FILES * MAX_CLIENTS + client % MAX_CLIENTS) * MAX_BLOCKS
}

// Where the client's copy of the block stands, wrapped likewise.
pub fn cell_of(client: usize, file: usize, block: usize) -> usize
    ensures value { result ≡ cell (client % max_clients) (file % max_files) (block % max_blocks) }
    ensures upper_bound { result < max_cells }
{
    first_cell(client, file) + block % MAX_BLOCKS
}

// Where the server's blocks of the file begin, and where a block stands, wrapped likewise.
pub fn first_place(file: usize) -> usize
    ensures value { result ≡ first_place (file % max_files) }
    ensures max_blocks_bound { result + max_blocks ≤ max_places }
{
    file % MAX_FILES * MAX_BLOCKS
}

pub fn place_of(file: usize, block: usize) -> usize
    ensures value { result ≡ place (file % max_files) (block % max_blocks) }
    ensures upper_bound { result < max_places }
{
    first_place(file) + block % MAX_BLOCKS
}

// How many of the blocks are dirty whose flags stand from base on.
pub fn count_dirty(count: usize, base: usize, dirty: &[bool; MAX_CELLS]) -> usize
    requires count_le_max_blocks { count ≤ max_blocks }
    requires max_blocks_bound { base + max_blocks ≤ max_cells }
    ensures { result ≡ tally count (λ b. get_or dirty.now (base + b) false) }
{
    let mut found = 0;
    for b in 0..count {
        found += one_if(dirty[base + b]);
    }
    found
}
