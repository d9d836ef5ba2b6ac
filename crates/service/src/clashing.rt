// Whether what a client reports clashes with what the server has accepted, on the rows and flags of the held service. It looks
// once at each file, and no further where the client says nothing of it.
ghost use Rattle.std.specs.Prelude.{◌≡◌, false, ◌+◌, ◌≤◌, ◌<◌, length, get_or};
ghost use Rattle.sizes.specs.Sizes.{Permitted, max_clients, max_files};
ghost use Rattle.decision.specs.Lists.{found_below};
ghost use Rattle.protocol.specs.Clash.{accepted_of, clashes_with, clashes_on};
ghost use Rattle.table.specs.Clash.{clash_file};
ghost use Rattle.words.specs.Words.{side_held};
ghost use Rattle.words.specs.Rows.{table_words, word_at, entry_held};
ghost use Rattle.service.specs.Lent.{lent_flags};
ghost use Rattle.service.specs.Served.{Silent};

use crate::flags::FLAGS;
use protocol::ClientFile;
use records::Version;
use sizes::Sizes;
use words::{ROW, WORDS, last_of, record_of, side_of};

// What the server has accepted of the client.
pub fn accepted_in(table: &[u64; WORDS], f: usize, client: usize) -> ClientFile
    requires client_lt_max_clients { client < max_clients }
    requires f_lt_max_files { f < max_files }
    requires table_len { length table.now ≡ table_words }
    ensures { result ≡ accepted_of (entry_held table.now f) client }
{
    let row = f * ROW;
    let last = last_of(table[row + 1]);
    ClientFile {
        opens: record_of(table[row + (2 + client)]),
        marked: last as usize == client,
        label: Version::none(),
    }
}

// The first client that has reported and clashes with this side of the file.
pub fn clashes_with(
    clients: usize,
    own: ClientFile,
    f: usize,
    table: &[u64; WORDS],
    flags: &[bool; FLAGS],
) -> Option<usize>
    requires clients_le_max_clients { clients ≤ max_clients }
    requires f_lt_max_files { f < max_files }
    requires table_len { length table.now ≡ table_words }
    requires flags_len { length flags.now ≡ lent_flags }
    ensures { result ≡ found_below clients (clashes_with clients (λ j. get_or flags.now j false)
        (entry_held table.now f) own) }
{
    for j in 0..clients {
        let accepted = accepted_in(table, f, j);
        if flags[j] & own.clashes(accepted) {
            return Some(j);
        }
    }
    None
}

// Passes four files at a time of which the client's words say nothing.
// Stays: no chain over `step_by(4)`, for it hands on the place that it came to.
fn pass_fours(files: usize, client: usize, from: usize, table: &[u64; WORDS]) -> usize
    requires files_le_max_files { files ≤ max_files }
    requires client_lt_max_clients { client < max_clients }
    requires from_le_files { from ≤ files }
    requires table_len { length table.now ≡ table_words }
    ensures { (from ≤ result) × (result ≤ files) × Silent client from result table.now }
{
    let mut f = from;
    while f + 4 <= files {
        let at = f * ROW + (10 + client);
        let said = table[at] % 4294967296
            + table[at + ROW] % 4294967296
            + table[at + 2 * ROW] % 4294967296
            + table[at + 3 * ROW] % 4294967296;
        if said != 0 {
            return f;
        }
        f += 4;
    }
    f
}

// The first file from this one on of which the client's word says anything; the number of the files where there is none.
fn next_said(files: usize, client: usize, from: usize, table: &[u64; WORDS]) -> usize
    requires files_le_max_files { files ≤ max_files }
    requires client_lt_max_clients { client < max_clients }
    requires from_le_files { from ≤ files }
    requires table_len { length table.now ≡ table_words }
    ensures { (from ≤ result) × (result ≤ files) × Silent client from result table.now }
{
    for f in pass_fours(files, client, from, table)..files {
        if table[f * ROW + (10 + client)] % 4294967296 != 0 {
            return f;
        }
    }
    files
}

// Whether this side of the file clashes, alone or with one that was accepted.
fn clashes_on(
    clients: usize,
    own: ClientFile,
    f: usize,
    table: &[u64; WORDS],
    flags: &[bool; FLAGS],
) -> bool
    requires clients_le_max_clients { clients ≤ max_clients }
    requires f_lt_max_files { f < max_files }
    requires table_len { length table.now ≡ table_words }
    requires flags_len { length flags.now ≡ lent_flags }
    ensures { result ≡ clashes_on clients (λ j. get_or flags.now j false)
        (entry_held table.now f) own }
{
    let with = clashes_with(clients, own, f, table, flags);
    own.says_anything() & (own.clashes(ClientFile::none()) | with.is_some())
}

// The first file of which the client's side clashes.
pub fn clash_file(
    sizes: Sizes,
    client: usize,
    table: &[u64; WORDS],
    flags: &[bool; FLAGS],
) -> Option<usize>
    requires permitted { Permitted sizes }
    requires client_lt_max_clients { client < max_clients }
    requires table_len { length table.now ≡ table_words }
    requires flags_len { length flags.now ≡ lent_flags }
    ensures { result ≡ found_below sizes.files (clash_file sizes (λ j. get_or flags.now j false) (entry_held table.now)
        (λ f. side_held (word_at table.now f (10 + client)))) }
{
    // Stays: no chain, for each turn begins where `next_said` stopped.
    let mut f = next_said(sizes.files, client, 0, table);
    while f < sizes.files {
        let own = side_of(table[f * ROW + (10 + client)]);
        if clashes_on(sizes.clients, own, f, table, flags) {
            return Some(f);
        }
        f = next_said(sizes.files, client, f + 1, table);
    }
    None
}
