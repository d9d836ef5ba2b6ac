// The sizes of a service: how many clients, files, and blocks in each file there are, and how many blocks the store has
// places for. The arrays have the largest sizes.
ghost use Rattle.std.specs.Prelude.{◌≡◌, cond};
ghost use Rattle.sizes.specs.Sizes.{default_sizes, is_permitted, are_permitted, at_most, in_force, Permitted};

// The largest sizes.
pub const MAX_CLIENTS: usize = 8;

pub const MAX_FILES: usize = 64;

pub const MAX_BLOCKS: usize = 8;

// How many blocks the server has room for, and how many copies the clients.
pub const MAX_PLACES: usize = MAX_FILES * MAX_BLOCKS;

pub const MAX_CELLS: usize = MAX_FILES * MAX_CLIENTS * MAX_BLOCKS;

// The sizes as given; one that is out of its range counts as not given.
#[derive(Clone, Copy, PartialEq, Eq)]
pub struct Sizes {
    pub clients: usize,
    pub files: usize,
    pub blocks: usize,
    // How many blocks the store has places for.
    pub store: usize,
}

impl Default for Sizes {
    ghost is_default = { λ z. z ≡ default_sizes };

    // 8 clients, 32 files, 4 blocks and a store of 512, where nothing else is chosen.
    fn default() -> Self
        ensures { result ≡ default_sizes }
    {
        Sizes {
            clients: 8,
            files: 32,
            blocks: 4,
            store: MAX_PLACES,
        }
    }
}

impl Sizes {
    // Whether each size lies inside its range.
    pub fn are_permitted(self) -> bool
        ensures { result ≡ are_permitted self }
    {
        let clients = is_permitted(self.clients, MAX_CLIENTS);
        let files = is_permitted(self.files, MAX_FILES);
        let blocks = is_permitted(self.blocks, MAX_BLOCKS);
        clients & (files & (blocks & (self.store <= MAX_PLACES)))
    }

    // The sizes that the service goes by.
    pub fn in_force(self) -> Self
        ensures value { result ≡ in_force self }
        ensures permitted { Permitted result }
    {
        let default = Sizes::default();
        Sizes {
            clients: permitted_or(self.clients, MAX_CLIENTS, default.clients),
            files: permitted_or(self.files, MAX_FILES, default.files),
            blocks: permitted_or(self.blocks, MAX_BLOCKS, default.blocks),
            store: at_most(self.store, MAX_PLACES),
        }
    }
}

fn is_permitted(size: usize, most: usize) -> bool
    ensures { result ≡ is_permitted most size }
{
    (1 <= size) & (size <= most)
}

fn permitted_or(size: usize, most: usize, otherwise: usize) -> usize
    ensures { result ≡ cond (is_permitted most size) size otherwise }
{
    if is_permitted(size, most) {
        size
    } else {
        otherwise
    }
}

// A number, or the most that it may be.
pub fn at_most(number: usize, most: usize) -> usize
    ensures { result ≡ at_most most number }
{
    number.min(most)
}
