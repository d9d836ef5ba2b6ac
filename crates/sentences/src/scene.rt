// What a sentence looks at, read from lent arrays: the words that are kept from before the step, and the flags.
ghost use Rattle.std.specs.Prelude.{◌≡◌, cond, ◌+◌, ◌*◌, ◌%◌, ◌≤◌, ◌<◌, length, get_or};
ghost use Rattle.sizes.specs.Sizes.{max_clients, max_files};
ghost use Rattle.decision.specs.Lists.{stored};
ghost use Rattle.protocol.specs.Client.{side_of};
ghost use Rattle.words.specs.Rows.{row_words, table_words, sides_held};
ghost use Rattle.service.specs.Lent.{lent_flags, reported_held, embargoed_held};
ghost use Rattle.sentences.specs.Scene.{kept_before, aside_held};

use ledger::BEGINNINGS;
use protocol::ClientFile;
use service::FLAGS;
use sizes::{MAX_CLIENTS, MAX_FILES};
use words::{ROW, WORDS, side_of};

// From the kind of a restart on, the kinds are those of the steps on all files.
// Stays: a number, since the clause of `keep_before` says what is kept for each.
const RESTART: u64 = 11;

// Keeps what a sentence looks at of the table before a step of this kind: the row of the file, which is wrapped, and
// before a step on all files the whole table.
pub fn keep_before(table: &[u64; WORDS], kind: u64, file: usize, before: &mut [u64; WORDS])
    requires table_len { length table.now ≡ table_words }
    requires before_len { length before.old ≡ table_words }
    ensures { before.new ≡ kept_before kind file table.now before.old }
{
    if RESTART <= kind {
        keep_words(table, 0, WORDS, before);
    } else {
        keep_words(table, file % MAX_FILES * ROW, ROW, before);
    }
}

fn keep_words(table: &[u64; WORDS], first: usize, count: usize, before: &mut [u64; WORDS])
    requires table_len { length table.now ≡ table_words }
    requires before_len { length before.old ≡ table_words }
    requires count_bound { first + count ≤ table_words }
    ensures { before.new
        ≡ stored count (λ k. first + k) (λ k. get_or table.now (first + k) 0) before.old }
{
    for k in 0..count {
        before[first + k] = table[first + k];
    }
}

// A client's side of the file.
pub fn side_in(table: &[u64; WORDS], f: usize, client: usize) -> ClientFile
    requires f_lt_max_files { f < max_files }
    requires table_len { length table.now ≡ table_words }
    ensures { result ≡ side_of (sides_held table.now f) client }
{
    if client < MAX_CLIENTS {
        side_of(table[f * ROW + (10 + client)])
    } else {
        ClientFile::none()
    }
}

// Who has reported.
pub fn reported_in(flags: &[bool; FLAGS]) -> [bool; MAX_CLIENTS]
    requires { length flags.now ≡ lent_flags }
    ensures { result ≡ reported_held flags.now }
{
    [
        flags[0], flags[1], flags[2], flags[3], flags[4], flags[5], flags[6], flags[7],
    ]
}

// Who is under embargo.
pub fn embargoed_in(flags: &[bool; FLAGS]) -> [bool; MAX_CLIENTS]
    requires { length flags.now ≡ lent_flags }
    ensures { result ≡ embargoed_held flags.now }
{
    [
        flags[9], flags[10], flags[11], flags[12], flags[13], flags[14], flags[15], flags[16],
    ]
}

// Whether the client, which is wrapped, is under embargo, and since which line.
pub fn is_aside(flags: &[bool; FLAGS], client: usize) -> bool
    requires { length flags.now ≡ lent_flags }
    ensures { result ≡ aside_held flags.now client }
{
    flags[MAX_CLIENTS + 1 + client % MAX_CLIENTS]
}

pub fn embargo_since(since: &[u64; BEGINNINGS], client: usize) -> u64
    ensures { result ≡ get_or since.now (max_files + client % max_clients) 0 }
{
    since[MAX_FILES + client % MAX_CLIENTS]
}
