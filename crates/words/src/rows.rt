// A row of the lent table, loaded and stored whole.
ghost use Rattle.std.specs.Prelude.{◌≡◌, ◌+◌, ◌<◌, length};
ghost use Rattle.sizes.specs.Sizes.{max_clients, max_files};
ghost use Rattle.words.specs.Words.{record_held, side_held};
ghost use Rattle.words.specs.Rows.{table_words, word_at, entry_held, sides_held, Puts};

use crate::words::{
    calls_of, calls_word, head_word, last_of, mode_of, record_of, record_word, side_of, side_word,
    version_of, waiter_of,
};
use protocol::{ClientFile, Entry, SharedFile, Sides};
use records::ClientRecord;
use sizes::{MAX_CLIENTS, MAX_FILES};
use std::array;

// How many words a row has, where the rows end, and how many words the table has: one stands after the rows.
pub const ROW: usize = 24;

pub const ROWS: usize = MAX_FILES * ROW;

pub const WORDS: usize = ROWS + 1;

pub fn entry_at(table: &[u64; WORDS], f: usize) -> Entry
    requires { f < max_files }
    ensures { result ≡ entry_held table.now f }
{
    let row = f * ROW;
    let head = table[row + 1];
    Entry {
        records: array::from_fn(|i| record_at(table, f, i)),
        version: version_of(head),
        last: last_of(head),
        waiter: waiter_of(head),
        mode: mode_of(head),
        calls: calls_of(table[row + 18]),
    }
}

pub fn sides_at(table: &[u64; WORDS], f: usize) -> Sides
    requires { f < max_files }
    ensures { result ≡ sides_held table.now f }
{
    Sides {
        of: array::from_fn(|i| side_at(table, f, i)),
    }
}

// The record of client i in the row of file f.
fn record_at(table: &[u64; WORDS], f: usize, i: usize) -> ClientRecord
    requires f_lt_max_files { f < max_files }
    requires i_lt_max_clients { i < max_clients }
    ensures { result ≡ record_held (word_at table.now f (2 + i)) }
{
    record_of(table[f * ROW + (2 + i)])
}

// The side of client i there.
fn side_at(table: &[u64; WORDS], f: usize, i: usize) -> ClientFile
    requires f_lt_max_files { f < max_files }
    requires i_lt_max_clients { i < max_clients }
    ensures { result ≡ side_held (word_at table.now f (10 + i)) }
{
    side_of(table[f * ROW + (10 + i)])
}

pub fn put_file(table: &mut [u64; WORDS], f: usize, shared: SharedFile)
    requires f_lt_max_files { f < max_files }
    requires table_len { length table.old ≡ table_words }
    ensures { Puts f shared table.old table.new }
{
    let entry = shared.entry;
    let row = f * ROW;
    table[row + 1] = head_word(entry.version, entry.last, entry.waiter, entry.mode);
    table[row + 18] = calls_word(entry.calls);
    for i in 0..MAX_CLIENTS {
        table[row + (2 + i)] = record_word(entry.records[i]);
        table[row + (10 + i)] = side_word(shared.sides.of[i]);
    }
}
