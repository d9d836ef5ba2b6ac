// What is said of a report that clashes.
ghost use Rattle.std.specs.Prelude.{◌+◌, ◌≤◌, ◌<◌, ◌≡◌, true, false, length, get_or};
ghost use Rattle.sizes.specs.Sizes.{Permitted, max_clients, max_files};
ghost use Rattle.protocol.specs.Clash.{clashes_on};
ghost use Rattle.protocol.specs.Client.{side_of};
ghost use Rattle.table.specs.TableStep.{is_reported};
ghost use Rattle.words.specs.Rows.{table_words, entry_held, sides_held};
ghost use Rattle.service.specs.Lent.{lent_flags, reported_held};
ghost use Rattle.writer.specs.Buffer.{Wrote};
ghost use Rattle.sentences.specs.Explained.{clash_on_text, clash_text};

use crate::scene::side_in;
use phrases::{put_not_both, put_untrue};
use protocol::ClientFile;
use service::{FLAGS, accepted_in, clash_file, clashes_with};
use sizes::{MAX_CLIENTS, Sizes};
use words::WORDS;

// The first file on which the report of the client clashes, and why; nothing where it clashes on none.
pub fn put_clash(
    out: &mut [u8],
    at: usize,
    sizes: Sizes,
    client: usize,
    table: &[u64; WORDS],
    flags: &[bool; FLAGS],
) -> usize
    requires permitted { Permitted sizes }
    requires at_in_bounds { at + 294 ≤ length out.old }
    requires table_len { length table.now ≡ table_words }
    requires flags_len { length flags.now ≡ lent_flags }
    ensures wrote { Wrote out.old at
        (clash_text sizes (is_reported (reported_held flags.now)) (entry_held table.now)
        (λ f. side_of (sides_held table.now f) client) client)
        out.new result }
    ensures upper_bound { result ≤ at + 294 }
{
    if MAX_CLIENTS <= client {
        return at;
    }
    let Some(file) = clash_file(sizes, client, table, flags) else {
        return at;
    };
    put_clash_on(out, at, sizes.clients, client, file, table, flags)
}

// What it says of a file on which it clashes, and of whom else, unless it cannot be true alone.
fn put_clash_on(
    out: &mut [u8],
    at: usize,
    clients: usize,
    client: usize,
    file: usize,
    table: &[u64; WORDS],
    flags: &[bool; FLAGS],
) -> usize
    requires clients_le_max_clients { clients ≤ max_clients }
    requires file_lt_max_files { file < max_files }
    requires at_in_bounds { at + 294 ≤ length out.old }
    requires table_len { length table.now ≡ table_words }
    requires flags_len { length flags.now ≡ lent_flags }
    requires client_value { clashes_on clients (λ j. get_or flags.now j false) (entry_held table.now file)
        (side_of (sides_held table.now file) client) ≡ true }
    ensures wrote { Wrote out.old at
        (clash_on_text clients (λ j. get_or flags.now j false) (entry_held table.now file)
        (side_of (sides_held table.now file) client) client file)
        out.new result }
    ensures upper_bound { result ≤ at + 294 }
{
    let own = side_in(table, file, client);
    if own.clashes(ClientFile::none()) {
        return put_untrue(out, at, file, client, own);
    }
    let Some(other) = clashes_with(clients, own, file, table, flags) else {
        unreachable!();
    };
    let accepted = accepted_in(table, file, other);
    put_not_both(out, at, file, client, own, other, accepted)
}
