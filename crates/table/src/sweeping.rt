// The steps on the whole table, in the lent rows: a crash and a report go through the files in force.
ghost use Rattle.std.specs.Prelude.{◌≡◌, ◌+◌, ◌≤◌, ◌<◌, length};
ghost use Rattle.sizes.specs.Sizes.{Permitted, max_clients, max_files};
ghost use Rattle.protocol.specs.Entry.{crashed_entry, reported_entry};
ghost use Rattle.protocol.specs.Client.{side_of};
ghost use Rattle.words.specs.Words.{record_held, side_held};
ghost use Rattle.words.specs.Rows.{table_words, word_at, entry_held, sides_held};
ghost use Rattle.table.specs.Swept.{Cleared, PutsEntry, Sweeps};

use protocol::NOBODY;
use records::Mode;
use sizes::{MAX_CLIENTS, Sizes};
use words::{ROW, WORDS, calls_past, head_word, version_of, with_last};

// None of the clients has the file open.
fn clear_records(clients: usize, f: usize, table: &mut [u64; WORDS])
    requires clients_le_max_clients { clients ≤ max_clients }
    requires f_lt_max_files { f < max_files }
    requires table_len { length table.old ≡ table_words }
    ensures { Cleared f table.old table.new clients }
{
    let first = f * ROW + 2;
    // Of eight clients by as many stores: where their number is not known, the fill is a call for each file.
    if clients == MAX_CLIENTS {
        table[first..first + MAX_CLIENTS].fill(0);
    } else {
        table[first..first + clients].fill(0);
    }
}

// Of one file's entry only the version survives.
fn crash_row(clients: usize, f: usize, table: &mut [u64; WORDS])
    requires clients_le_max_clients { clients ≤ max_clients }
    requires f_lt_max_files { f < max_files }
    requires table_len { length table.old ≡ table_words }
    ensures { PutsEntry f (crashed_entry clients (entry_held table.old f))
        table.old table.new }
{
    clear_records(clients, f, table);
    let row = f * ROW;
    let head = table[row + 1];
    let calls = table[row + 18];
    let version = version_of(head);
    table[row + 1] = head_word(version, NOBODY, NOBODY, Mode::Read);
    table[row + 18] = calls_past(calls, clients);
}

// Of every entry in force only the version survives.
// Stays: no one function over a closure with the one below, for each is a loop of one call.
pub fn crash_rows(sizes: Sizes, table: &mut [u64; WORDS])
    requires permitted { Permitted sizes }
    requires table_len { length table.old ≡ table_words }
    ensures { Sweeps sizes.files
        (λ f. crashed_entry sizes.clients (entry_held table.old f))
        table.old table.new }
{
    for f in 0..sizes.files {
        crash_row(sizes.clients, f, table);
    }
}

// The record in a side.
fn record_part(side: u64) -> u64
    ensures { record_held result ≡ record_held side }
{
    side % 16777216
}

// Whether the side has the last-writer flag.
fn marked_in(side: u64) -> bool
    ensures { result ≡ (side_held side).marked }
{
    side / 16777216 % 256 == 1
}

// A client reports its side of one file: with its flag it is the last writer.
fn report_row(client: usize, f: usize, table: &mut [u64; WORDS])
    requires client_lt_max_clients { client < max_clients }
    requires f_lt_max_files { f < max_files }
    requires table_len { length table.old ≡ table_words }
    ensures { PutsEntry f
        (reported_entry (entry_held table.old f) client
        (side_held (word_at table.old f (10 + client))))
        table.old table.new }
{
    let row = f * ROW;
    let side = table[row + (10 + client)];
    table[row + (2 + client)] = record_part(side);
    if marked_in(side) {
        let head = table[row + 1];
        table[row + 1] = with_last(head, client as u8);
    }
}

// A client reports its side of every file in force.
pub fn report_rows(sizes: Sizes, client: usize, table: &mut [u64; WORDS])
    requires permitted { Permitted sizes }
    requires client_lt_max_clients { client < max_clients }
    requires table_len { length table.old ≡ table_words }
    ensures { Sweeps sizes.files
        (λ f. reported_entry (entry_held table.old f) client
        (side_of (sides_held table.old f) client))
        table.old table.new }
{
    for f in 0..sizes.files {
        report_row(client, f, table);
    }
}
