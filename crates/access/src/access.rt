// Reads and writes of one block. What stands at a wrapped place counts only where the step is not refused before.
ghost use Rattle.std.specs.Prelude.{◌≡◌, Bool};
ghost use Rattle.sizes.specs.Sizes.{Permitted};
ghost use Rattle.access.specs.BlockStep.{block_step, Leaves};

use crate::refusal::{read_refusal, write_refusal};
use blocks::{Stores, cell_of, place_of};
use protocol::{BlockCopy, ClientFile, Reply, Step};
use sizes::Sizes;

// Reads a block: the client's copy where it may cache and holds it; else the server's, which a client that may cache
// then holds.
pub fn read_block(
    sizes: Sizes,
    embargoed: bool,
    recovering: bool,
    reported: bool,
    own: ClientFile,
    client: usize,
    file: usize,
    block: usize,
    stores: &mut Stores,
) -> Reply
    requires { Permitted sizes }
    ensures { (takes full : Bool) → Leaves
        (block_step sizes embargoed recovering reported own takes full stores.old
        (Step.Read client file block))
        result stores.new }
{
    let cell = cell_of(client, file, block);
    let is_held = stores.held[cell];
    if let Err(refusal) = read_refusal(
        sizes, embargoed, recovering, reported, own, is_held, client, file, block,
    ) {
        return Reply::from(refusal);
    }
    let place = place_of(file, block);
    let copy = BlockCopy {
        value: stores.copies[cell],
        held: is_held,
        dirty: stores.dirty[cell],
    };
    let after = own.read(copy, stores.blocks[place]);
    stores.copies[cell] = after.copy.value;
    stores.held[cell] = after.copy.held;
    after.reply
}

// Writes a block: the client's copy where it may cache, else the server's. The caller says whether the write takes a free
// place, and whether none is free.
pub fn write_block(
    sizes: Sizes,
    embargoed: bool,
    recovering: bool,
    reported: bool,
    own: ClientFile,
    takes: bool,
    full: bool,
    client: usize,
    file: usize,
    block: usize,
    value: u64,
    stores: &mut Stores,
) -> Reply
    requires { Permitted sizes }
    ensures { Leaves
        (block_step sizes embargoed recovering reported own takes full stores.old
        (Step.Write client file block value))
        result stores.new }
{
    if let Err(refusal) = write_refusal(
        sizes, embargoed, recovering, reported, own, takes, full, client, file, block,
    ) {
        return Reply::from(refusal);
    }
    let cell = cell_of(client, file, block);
    let place = place_of(file, block);
    let copy = BlockCopy {
        value: stores.copies[cell],
        held: stores.held[cell],
        dirty: stores.dirty[cell],
    };
    let after = own.write(copy, stores.blocks[place], value);
    stores.copies[cell] = after.copy.value;
    stores.held[cell] = after.copy.held;
    stores.dirty[cell] = after.copy.dirty;
    stores.blocks[place] = after.block;
    after.reply
}
