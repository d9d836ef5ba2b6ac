// A close: three words of the row are loaded and stored, the client's record and side and the head.
ghost use Rattle.std.specs.Prelude.{◌≡◌, Bool, cond, List, ℕ, ◌%◌, ◌<◌, length};
ghost use Rattle.sizes.specs.Sizes.{Permitted, max_clients, max_files, nobody};
ghost use Rattle.protocol.specs.Reply.{no_calls};
ghost use Rattle.words.specs.Rows.{file_held, table_words};
ghost use Rattle.file.specs.FileStep.{file_step};
ghost use Rattle.file.specs.Held.{Holds};

use crate::refusal::close_refusal;
use blocks::{Stores, count_dirty, first_cell};
use protocol::{NOBODY, Reply, Step};
use records::Mode;
use sizes::{MAX_CLIENTS, MAX_FILES, Sizes};
use words::{
    ROW, WORDS, last_of, record_of, record_word, side_of, side_word, waiter_of, with_last,
};

// The last writer after a close, which ends the client's writing or does not.
fn last_closed(ends: bool, any: bool, client: usize, last: u8) -> u8
    requires { client < max_clients }
    ensures { result ≡ cond ends (cond any client nobody) last }
{
    if ends {
        if any { client as u8 } else { NOBODY }
    } else {
        last
    }
}

pub fn close(
    sizes: Sizes,
    embargoed: bool,
    recovering: bool,
    mode: Mode,
    client: usize,
    file: usize,
    table: &mut [u64; WORDS],
    stores: &Stores,
) -> Reply
    requires permitted { Permitted sizes }
    requires table_len { length table.old ≡ table_words }
    ensures { Holds
        (file_step sizes embargoed recovering (file_held table.old (file % max_files))
        stores.now
        (Step.Close mode client file))
        (file % max_files) table.old table.new result no_calls
        stores.now }
{
    let row = file % MAX_FILES * ROW;
    let c = client % MAX_CLIENTS;
    let head = table[row + 1];
    let own = side_of(table[row + (10 + c)]);
    if let Err(refusal) = close_refusal(
        sizes,
        embargoed,
        recovering,
        waiter_of(head),
        own,
        mode,
        client,
        file,
    ) {
        return Reply::from(refusal);
    }
    let any = 0 < count_dirty(sizes.blocks, first_cell(client, file), &stores.dirty);
    let known = record_of(table[row + (2 + c)]);
    let last = last_closed(known.ends_writing(mode), any, client, last_of(head));
    table[row + (2 + c)] = record_word(known.closed(mode));
    table[row + 1] = with_last(head, last);
    table[row + (10 + c)] = side_word(own.closed(mode, any));
    Reply::Done
}
