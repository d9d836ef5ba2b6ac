// How many blocks of a service that takes an image are used, and how many places of the store are left beside them.
ghost use Rattle.std.specs.Prelude.{◌-◌, ◌≤◌, ◌<◌, ◌≡◌, false, get_or};
ghost use Rattle.sizes.specs.Sizes.{max_files, max_blocks, place, Permitted};
ghost use Rattle.decision.specs.Lists.{count};
ghost use Rattle.service.specs.Space.{used_in};

use sizes::{MAX_BLOCKS, MAX_PLACES, Sizes};

// How many blocks are used, as far as the sizes go.
// Stays: as a chain it is no plainer, since `sum` asks for a bound on the sum of all files before the first is counted.
pub fn count_used(used: &[bool; MAX_PLACES], sizes: Sizes) -> usize
    requires { Permitted sizes }
    ensures { result ≡ used_in sizes used.now }
{
    let mut total: usize = 0;
    for f in 0..sizes.files {
        total += count_file_used(used, f, sizes.blocks);
    }
    total
}

// How many blocks of one file are used.
fn count_file_used(used: &[bool; MAX_PLACES], file: usize, blocks: usize) -> usize
    requires file_lt_max_files { file < max_files }
    requires blocks_le_max_blocks { blocks ≤ max_blocks }
    ensures value { result ≡ count blocks (λ b. get_or used.now (place file b) false) }
    ensures upper_bound { result ≤ max_blocks }
{
    let start = file * MAX_BLOCKS;
    used[start..start + blocks]
        .iter()
        .filter(|used| **used)
        .count()
}

// How many places a store has beside so many used blocks.
pub fn places_left(store: usize, used: usize) -> usize
    ensures { result ≡ store - used }
{
    store.saturating_sub(used)
}
