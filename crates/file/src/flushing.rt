// A flush: one dirty block goes to the server, and two words of the row are stored, the head and the client's side.
ghost use Rattle.std.specs.Prelude.{◌≡◌, Bool, cond, not, ◌&&◌, List, ◌%◌, eqb, length};
ghost use Rattle.sizes.specs.Sizes.{Permitted, max_files, nobody};
ghost use Rattle.protocol.specs.Reply.{no_calls};
ghost use Rattle.words.specs.Rows.{file_held, table_words};
ghost use Rattle.file.specs.FileStep.{file_step};
ghost use Rattle.file.specs.Held.{Holds};

use crate::refusal::flush_refusal;
use blocks::{Stores, cell_of, count_dirty, first_cell, place_of};
use protocol::{NOBODY, Reply, Step};
use sizes::{MAX_CLIENTS, MAX_FILES, Sizes};
use words::{ROW, WORDS, last_of, side_of, side_word, with_last};

// The last writer after a flush; left says whether another block is still dirty at the client.
fn last_flushed(left: bool, client: usize, last: u8) -> u8
    ensures { result ≡ cond (not left && eqb last client) nobody last }
{
    if !left & (last as usize == client) {
        NOBODY
    } else {
        last
    }
}

// What stands at the wrapped place counts only where the step is not refused before.
pub fn flush(
    sizes: Sizes,
    embargoed: bool,
    recovering: bool,
    client: usize,
    file: usize,
    block: usize,
    table: &mut [u64; WORDS],
    stores: &mut Stores,
) -> Reply
    requires permitted { Permitted sizes }
    requires table_len { length table.old ≡ table_words }
    ensures { Holds
        (file_step sizes embargoed recovering (file_held table.old (file % max_files))
        stores.old
        (Step.Flush client file block))
        (file % max_files) table.old table.new result no_calls
        stores.new }
{
    let cell = cell_of(client, file, block);
    if let Err(refusal) = flush_refusal(
        sizes,
        embargoed,
        recovering,
        stores.dirty[cell],
        client,
        file,
        block,
    ) {
        return Reply::from(refusal);
    }
    stores.blocks[place_of(file, block)] = stores.copies[cell];
    stores.dirty[cell] = false;
    let left = 0 < count_dirty(sizes.blocks, first_cell(client, file), &stores.dirty);
    let row = file % MAX_FILES * ROW;
    let c = client % MAX_CLIENTS;
    let head = table[row + 1];
    let own = side_of(table[row + (10 + c)]);
    table[row + 1] = with_last(head, last_flushed(left, client, last_of(head)));
    table[row + (10 + c)] = side_word(own.flushed(left));
    Reply::Done
}
