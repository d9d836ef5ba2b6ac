// What is said of a client that the server forgets, at a restart or an embargo, and of one that is told.
ghost use Rattle.std.specs.Prelude.{ℕ, ◌+◌, ◌≤◌, ◌<◌, ◌≡◌, false, List, [], length, replicate};
ghost use Rattle.sizes.specs.Sizes.{max_files, Permitted};
ghost use Rattle.decision.specs.Lists.{stored};
ghost use Rattle.protocol.specs.Client.{side_of};
ghost use Rattle.records.specs.Record.{is_open};
ghost use Rattle.words.specs.Rows.{table_words, sides_held};
ghost use Rattle.ledger.specs.declared.lines.Lines.{Lines};
ghost use Rattle.ledger.specs.Ledger.{lines_at};
ghost use Rattle.writer.specs.Buffer.{Wrote};
ghost use Rattle.sentences.specs.Scene.{whole_held};
ghost use Rattle.sentences.specs.Explained.{grants, grant_in, granted_text, grants_text, opened_text};
ghost use Rattle.sentences.specs.Explained.{forgotten_text};

use crate::scene::side_in;
use decision::record_of;
use ledger::Ledger;
use phrases::{put_grant, put_losses, put_opened, put_text};
use protocol::{ClientFile, Entry, Grant};
use sizes::{MAX_FILES, Sizes};
use words::{WORDS, entry_at};

// What the client had open, which writes are lost, and which opens of others are granted. The words before the step are
// those of the whole table; the lines are those before it.
pub fn put_forgotten(
    out: &mut [u8],
    at: usize,
    sizes: Sizes,
    client: usize,
    before: &[u64; WORDS],
    table: &[u64; WORDS],
    ledger: &Ledger,
) -> usize
    requires permitted { Permitted sizes }
    requires at_in_bounds { at + 55266 ≤ length out.old }
    requires before_len { length before.now ≡ table_words }
    requires table_len { length table.now ≡ table_words }
    ensures wrote { Wrote out.old at
        (forgotten_text sizes
        (whole_held before.now table.now
        (lines_at ledger.now))
        client)
        out.new result }
    ensures upper_bound { result ≤ at + 55266 }
{
    let lost = put_files_open(out, at, sizes, client, before);
    let losses = put_text(out, lost, b"; writes lost:");
    let granted = put_losses(out, losses, sizes.files, sizes.blocks, client, ledger);
    put_grants(out, granted, sizes, client, before, table)
}

// What the client had open.
pub fn put_files_open(
    out: &mut [u8],
    at: usize,
    sizes: Sizes,
    client: usize,
    before: &[u64; WORDS],
) -> usize
    requires permitted { Permitted sizes }
    requires at_in_bounds { at + 1364 ≤ length out.old }
    requires before_len { length before.now ≡ table_words }
    ensures by_index { (t : List ℕ) (lines : ℕ → ℕ → Lines) → Wrote out.old at
        (opened_text sizes (whole_held before.now t lines) client) out.new result }
    ensures upper_bound { result ≤ at + 1364 }
{
    let list = put_text(out, at, b"; files it had open:");
    let opened = opened_by(before, sizes.files, client);
    put_opened(out, list, sizes.files, opened)
}

// Which files the client has open, by its own record.
fn opened_by(table: &[u64; WORDS], files: usize, client: usize) -> [bool; MAX_FILES]
    requires files_le_max_files { files ≤ max_files }
    requires table_len { length table.now ≡ table_words }
    ensures { result ≡ stored files (λ f. f)
        (λ f. is_open (side_of (sides_held table.now f) client).opens) (replicate max_files false) }
{
    let mut flags = [false; MAX_FILES];
    for f in 0..files {
        let side = side_in(table, f, client);
        let opens = side.opens;
        flags[f] = opens.is_open();
    }
    flags
}

// The opens of others that are granted, by ascending file.
fn put_grants(
    out: &mut [u8],
    at: usize,
    sizes: Sizes,
    client: usize,
    before: &[u64; WORDS],
    table: &[u64; WORDS],
) -> usize
    requires permitted { Permitted sizes }
    requires at_in_bounds { at + 11392 ≤ length out.old }
    requires before_len { length before.now ≡ table_words }
    requires table_len { length table.now ≡ table_words }
    ensures by_index { (lines : ℕ → ℕ → Lines) → Wrote out.old at
        (grants_text sizes.clients (whole_held before.now table.now lines) client sizes.files)
        out.new result }
    ensures upper_bound { result ≤ at + 11392 }
{
    let mut next = at;
    for f in 0..sizes.files {
        let entry = entry_at(before, f);
        let after = entry_at(table, f);
        let own = side_in(before, f, entry.waiter as usize);
        next = put_granted(out, next, sizes.clients, client, entry, after, own, f);
    }
    next
}

// The open of another that waited on the file, if it is granted. The entries are those before and after the step, and
// own is the opener's side before it.
fn put_granted(
    out: &mut [u8],
    at: usize,
    clients: usize,
    client: usize,
    entry: Entry,
    after: Entry,
    own: ClientFile,
    file: usize,
) -> usize
    requires { at + 178 ≤ length out.old }
    ensures wrote { Wrote out.old at
        (granted_text clients client entry after own file) out.new result }
    ensures upper_bound { result ≤ at + 178 }
{
    if !is_granted(clients, client, entry, after) {
        return at;
    }
    let open = put_text(out, at, b"; ");
    let opener = entry.waiter as usize;
    let mode = entry.mode;
    put_grant(out, open, mode, grant_in(after, opener), own, opener, file)
}

fn is_granted(clients: usize, client: usize, entry: Entry, after: Entry) -> bool
    ensures { result ≡ grants clients client entry after }
{
    let others = !(entry.waiter as usize == client);
    entry.waits(clients) & (others & !after.waits(clients))
}

// What the grant told, by the entry after it.
fn grant_in(entry: Entry, client: usize) -> Grant
    ensures { result ≡ grant_in entry client }
{
    let version = entry.version;
    let latest = version.as_read();
    let records = entry.records;
    let own = record_of(records, client);
    Grant {
        latest,
        previous: latest.previous(),
        caching: own.caching,
    }
}
