// What stands in the places of blocks: the blocks themselves, and whether each is used.
ghost use Rattle.std.specs.Prelude.{◌≤◌, ◌<◌, ◌≡◌, get_or, length};
ghost use Rattle.sizes.specs.Sizes.{max_files, max_blocks, max_places, place, Permitted};
ghost use Rattle.decision.specs.Lists.{stored};
ghost use Rattle.restore.specs.Reading.{with_places};

use sizes::{MAX_BLOCKS, MAX_PLACES, Sizes};

// What is held, with that of the others as far as the sizes go.
pub fn with_places<T: Copy>(
    mut held: [T; MAX_PLACES],
    others: &[T; MAX_PLACES],
    sizes: Sizes,
) -> [T; MAX_PLACES]
    requires { Permitted sizes }
    ensures { (none : T) → result ≡ with_places none sizes.files sizes.blocks others.now held }
{
    for f in 0..sizes.files {
        take_file(&mut held, others, f, sizes.blocks);
    }
    held
}

// That of one file, from the others.
fn take_file<T: Copy>(held: &mut [T], others: &[T], file: usize, count: usize)
    requires file_lt_max_files { file < max_files }
    requires count_le_max_blocks { count ≤ max_blocks }
    requires held_len { length held.old ≡ max_places }
    requires others_len { length others.now ≡ max_places }
    ensures { (none : T) → held.new
        ≡ stored count (place file) (λ b. get_or others.now (place file b) none) held.old }
{
    let start = file * MAX_BLOCKS;
    held[start..start + count].copy_from_slice(&others[start..start + count]);
}
