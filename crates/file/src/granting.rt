// The grant of an open, at once or once all have answered: four words of the row are stored, the opener's record and
// side, the head and the callbacks.
ghost use Rattle.std.specs.Prelude.{◌≡◌, false, cond, List, ℕ, ◌%◌, ◌<◌, ◌≤◌, length};
ghost use Rattle.records.specs.Record.{is_write};
ghost use Rattle.sizes.specs.Sizes.{Permitted, max_clients, max_files, nobody};
ghost use Rattle.protocol.specs.Entry.{granted_entry};
ghost use Rattle.protocol.specs.Client.{side_of, with_side, granted_client};
ghost use Rattle.protocol.specs.Reply.{no_calls, is_refused};
ghost use Rattle.words.specs.Words.{version_held, last_held, Head};
ghost use Rattle.words.specs.Rows.{entry_held, sides_held, file_held, table_words, Puts};
ghost use Rattle.file.specs.FileStep.{granted};
ghost use Rattle.file.specs.Held.{Holds};

use blocks::{Stores, first_cell};
use protocol::{ClientFile, Grant, NOBODY, Reply};
use records::{Mode, Version};
use sizes::{MAX_FILES, Sizes};
use words::{
    ROW, WORDS, calls_past, head_word, last_of, record_of, record_word, side_of, side_word,
    version_of,
};

// The head after a grant.
fn granted_head(head: u64, mode: Mode, latest: Version) -> u64
    ensures { Head result (cond (is_write mode) latest (version_held head))
        (cond (is_write mode) nobody (last_held head)) nobody Mode.Read }
{
    match mode {
        Mode::Read => head_word(version_of(head), last_of(head), NOBODY, Mode::Read),
        Mode::Write => head_word(latest, NOBODY, NOBODY, Mode::Read),
    }
}

// The four words.
fn put_grant(clients: usize, mode: Mode, grant: Grant, c: usize, f: usize, table: &mut [u64; WORDS])
    requires clients_le_max_clients { clients ≤ max_clients }
    requires c_lt_max_clients { c < max_clients }
    requires f_lt_max_files { f < max_files }
    requires table_len { length table.old ≡ table_words }
    ensures { Puts f
        (record {
          entry = granted_entry clients (entry_held table.old f) c mode grant;
          sides = with_side (sides_held table.old f) c
              (granted_client mode grant (side_of (sides_held table.old f) c));
        })
        table.old table.new }
{
    let row = f * ROW;
    let head = table[row + 1];
    let kinds = table[row + 18];
    let known = record_of(table[row + (2 + c)]);
    let own = side_of(table[row + (10 + c)]);
    table[row + (2 + c)] = record_word(known.opened(mode, grant.caching));
    table[row + 1] = granted_head(head, mode, grant.latest);
    table[row + 18] = calls_past(kinds, clients);
    table[row + (10 + c)] = side_word(own.granted(mode, grant));
}

// An open is granted: the opener, whose side this is, keeps its copy or drops it. The contract holds for whatever the
// step replies, if it is no refusal.
pub fn grant_open(
    sizes: Sizes,
    mode: Mode,
    grant: Grant,
    own: ClientFile,
    opener: usize,
    file: usize,
    table: &mut [u64; WORDS],
    stores: &mut Stores,
)
    requires permitted { Permitted sizes }
    requires opener_lt_clients { opener < sizes.clients }
    requires file_lt_files { file < sizes.files }
    requires table_len { length table.old ≡ table_words }
    requires opener_value { side_of (sides_held table.old (file % max_files)) opener ≡ own }
    ensures { (reply : Reply) → is_refused reply ≡ false → Holds
        (granted sizes file (file_held table.old (file % max_files))
        stores.old opener mode grant reply)
        (file % max_files) table.old table.new reply no_calls
        stores.new }
{
    stores.drop_copies_unless(
        own.keeps_blocks(mode, grant),
        sizes.blocks,
        first_cell(opener, file),
    );
    put_grant(sizes.clients, mode, grant, opener, file % MAX_FILES, table);
}
