// The server forgets a client, on one file: three words of the row are stored, the client's record, the head and the
// callbacks, and once more where a callback to it was out, which counts as answered. And a client drops what it has of
// a file: its copies, and its side of the row.
ghost use Rattle.std.specs.Prelude.{◌≡◌, cond, List, ℕ, ◌%◌, ◌<◌, ◌≤◌, eqb, length};
ghost use Rattle.sizes.specs.Sizes.{Permitted, max_clients, max_files, nobody};
ghost use Rattle.decision.specs.Lists.{filled};
ghost use Rattle.protocol.specs.Entry.{forgotten_entry};
ghost use Rattle.words.specs.Words.{version_held, last_held, waiter_held, mode_held, calls_held, Head};
ghost use Rattle.words.specs.Rows.{entry_held, sides_held, file_held, table_words, Puts};
ghost use Rattle.file.specs.FileStep.{after_forgetting, after_dropping};
ghost use Rattle.file.specs.Held.{Leaves};

use crate::answering::grant_if_last;
use crate::row::put_known;
use blocks::{Stores, first_cell};
use decision::asks_nothing;
use protocol::{ClientFile, Grant, NOBODY, Reply};
use records::{ClientRecord, Mode};
use sizes::{MAX_CLIENTS, MAX_FILES, Sizes};
use words::{
    ROW, WORDS, calls_past, entry_at, head_word, last_of, mode_of, record_word, side_word,
    version_of, waiter_of,
};

// The last writer or the waiter, or nobody where that is the client.
fn other_than(c: usize, who: u8) -> u8
    ensures { result ≡ cond (eqb who c) nobody who }
{
    if who as usize == c { NOBODY } else { who }
}

// The mode of the open that still waits.
fn mode_left(c: usize, waiter: u8, mode: Mode) -> Mode
    ensures { result ≡ cond (eqb waiter c) Mode.Read mode }
{
    if waiter as usize == c {
        Mode::Read
    } else {
        mode
    }
}

// The head without the client.
fn forgotten_head(head: u64, c: usize) -> u64
    ensures { Head result (version_held head)
        (cond (eqb (last_held head) c) nobody (last_held head))
        (cond (eqb (waiter_held head) c) nobody (waiter_held head))
        (cond (eqb (waiter_held head) c) Mode.Read (mode_held head)) }
{
    let waiter = waiter_of(head);
    head_word(
        version_of(head),
        other_than(c, last_of(head)),
        other_than(c, waiter),
        mode_left(c, waiter, mode_of(head)),
    )
}

// The word of the callbacks, without those of the client's own open.
fn calls_left(clients: usize, c: usize, waiter: u8, kinds: u64) -> u64
    requires { clients ≤ max_clients }
    ensures { calls_held result ≡ cond (eqb waiter c) (filled clients 0 (calls_held kinds)) (calls_held kinds) }
{
    if waiter as usize == c {
        return calls_past(kinds, clients);
    }
    kinds
}

// The three words, without the client.
fn put_forgotten(clients: usize, c: usize, f: usize, table: &mut [u64; WORDS])
    requires clients_le_max_clients { clients ≤ max_clients }
    requires c_lt_max_clients { c < max_clients }
    requires f_lt_max_files { f < max_files }
    requires table_len { length table.old ≡ table_words }
    ensures { Puts f
        (record {
          entry = forgotten_entry clients (entry_held table.old f) c;
          sides = sides_held table.old f;
        })
        table.old table.new }
{
    let row = f * ROW;
    let head = table[row + 1];
    let kinds = table[row + 18];
    table[row + (2 + c)] = record_word(ClientRecord::not_open());
    table[row + 1] = forgotten_head(head, c);
    table[row + 18] = calls_left(clients, c, waiter_of(head), kinds);
}

// The server forgets the client. The reply tells whose waiting open that grants, if one.
pub fn forget(
    sizes: Sizes,
    client: usize,
    file: usize,
    table: &mut [u64; WORDS],
    stores: &mut Stores,
) -> Reply
    requires permitted { Permitted sizes }
    requires client_lt_clients { client < sizes.clients }
    requires file_lt_files { file < sizes.files }
    requires table_len { length table.old ≡ table_words }
    ensures by_index { Leaves
        (after_forgetting sizes file (file_held table.old (file % max_files))
        stores.old client)
        (file % max_files) table.old table.new result
        stores.new }
    ensures by_index_2 { (sent j : ℕ) (g : Grant) → result ≡ Reply.AnsweredGrant sent j g → j < sizes.clients }
{
    let f = file % MAX_FILES;
    let c = client % MAX_CLIENTS;
    put_forgotten(sizes.clients, c, f, table);
    let entry = entry_at(table, f);
    let kind = entry.call_to(sizes.clients, client);
    if asks_nothing(kind) {
        return Reply::Done;
    }
    let answered = entry.answered(client, kind);
    put_known(answered, c, f, table);
    grant_if_last(sizes, 0, answered, file, table, stores)
}

// The client has nothing of the file any more.
pub fn drop_file(
    sizes: Sizes,
    client: usize,
    file: usize,
    table: &mut [u64; WORDS],
    stores: &mut Stores,
)
    requires permitted { Permitted sizes }
    requires client_lt_clients { client < sizes.clients }
    requires file_lt_files { file < sizes.files }
    requires table_len { length table.old ≡ table_words }
    ensures { Leaves
        (after_dropping sizes file (file_held table.old (file % max_files))
        stores.old client)
        (file % max_files) table.old table.new Reply.Done
        stores.new }
{
    stores.drop_copies_unless(false, sizes.blocks, first_cell(client, file));
    table[file % MAX_FILES * ROW + (10 + client % MAX_CLIENTS)] = side_word(ClientFile::none());
}
