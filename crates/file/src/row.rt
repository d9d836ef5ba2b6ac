// What the steps store of an entry in its row: the head and the callbacks; with them the record of one client; and with
// these the client's side.
ghost use Rattle.std.specs.Prelude.{◌≡◌, List, ◌≢◌, ℕ, ◌<◌, ◌+◌, length, get_or};
ghost use Rattle.records.specs.Record.{not_open};
ghost use Rattle.sizes.specs.Sizes.{max_clients, max_files};
ghost use Rattle.protocol.specs.Client.{with_side};
ghost use Rattle.words.specs.Words.{record_held};
ghost use Rattle.words.specs.Rows.{word_at, entry_held, sides_held, table_words, Puts};

use protocol::{ClientFile, Entry};
use words::{ROW, WORDS, calls_word, head_word, record_word, side_word};

// An entry whose records stay as they are.
pub fn put_head(entry: Entry, f: usize, table: &mut [u64; WORDS])
    requires f_lt_max_files { f < max_files }
    requires table_len { length table.old ≡ table_words }
    requires records_value { entry.records ≡ (entry_held table.old f).records }
    ensures { Puts f (record { entry = entry; sides = sides_held table.old f })
        table.old table.new }
{
    let row = f * ROW;
    table[row + 1] = head_word(entry.version, entry.last, entry.waiter, entry.mode);
    table[row + 18] = calls_word(entry.calls);
}

// An entry whose other records stay as they are.
pub fn put_known(entry: Entry, c: usize, f: usize, table: &mut [u64; WORDS])
    requires c_lt_max_clients { c < max_clients }
    requires f_lt_max_files { f < max_files }
    requires table_len { length table.old ≡ table_words }
    requires by_index { (j : ℕ) → j < max_clients → j ≢ c
        → record_held (word_at table.old f (2 + j)) ≡ get_or entry.records j not_open }
    ensures { Puts f (record { entry = entry; sides = sides_held table.old f })
        table.old table.new }
{
    table[f * ROW + (2 + c)] = record_word(entry.records[c]);
    put_head(entry, f, table);
}

// And the client's side.
pub fn put_own(entry: Entry, own: ClientFile, c: usize, f: usize, table: &mut [u64; WORDS])
    requires c_lt_max_clients { c < max_clients }
    requires f_lt_max_files { f < max_files }
    requires table_len { length table.old ≡ table_words }
    requires by_index { (j : ℕ) → j < max_clients → j ≢ c
        → record_held (word_at table.old f (2 + j)) ≡ get_or entry.records j not_open }
    ensures { Puts f (record { entry = entry; sides = with_side (sides_held table.old f) c own })
        table.old table.new }
{
    put_known(entry, c, f, table);
    table[f * ROW + (10 + c)] = side_word(own);
}
