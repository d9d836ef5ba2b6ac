// An answer: the client's four words of the row are stored, its record and side, the head and the callbacks; and if it
// was the last, the open that waits is granted.
ghost use Rattle.std.specs.Prelude.{◌≡◌, List, ◌%◌, ◌<◌, length};
ghost use Rattle.sizes.specs.Sizes.{Permitted, max_files};
ghost use Rattle.protocol.specs.Reply.{no_calls};
ghost use Rattle.words.specs.Rows.{entry_held, file_held, table_words};
ghost use Rattle.file.specs.FileStep.{leaving, granted_if_last, file_step};
ghost use Rattle.file.specs.Held.{Holds, Leaves};

use crate::granting::grant_open;
use crate::refusal::answer_refusal;
use crate::row::put_own;
use blocks::{Stores, first_cell, first_place};
use protocol::{Entry, Reply, Step};
use sizes::{MAX_CLIENTS, MAX_FILES, Sizes};
use words::{ROW, WORDS, entry_at, side_of};

pub fn answer(
    sizes: Sizes,
    embargoed: bool,
    recovering: bool,
    client: usize,
    file: usize,
    table: &mut [u64; WORDS],
    stores: &mut Stores,
) -> Reply
    requires permitted { Permitted sizes }
    requires table_len { length table.old ≡ table_words }
    ensures { Holds
        (file_step sizes embargoed recovering (file_held table.old (file % max_files))
        stores.old
        (Step.Answer client file))
        (file % max_files) table.old table.new result no_calls
        stores.new }
{
    let f = file % MAX_FILES;
    let c = client % MAX_CLIENTS;
    let row = f * ROW;
    let entry = entry_at(table, f);
    if let Err(refusal) = answer_refusal(sizes, embargoed, recovering, entry, client, file) {
        return Reply::from(refusal);
    }
    let kind = entry.call_to(sizes.clients, client);
    let own = side_of(table[row + (10 + c)]);
    let sent = stores.answer_blocks(
        kind,
        sizes.blocks,
        first_cell(client, file),
        first_place(file),
    );
    let answered = entry.answered(client, kind);
    put_own(answered, own.answered(kind), c, f, table);
    grant_if_last(sizes, sent, answered, file, table, stores)
}

// The reply to an answer that sent so many blocks and left this entry: where no callback is out any more the open that
// waits is granted.
pub fn grant_if_last(
    sizes: Sizes,
    sent: usize,
    answered: Entry,
    file: usize,
    table: &mut [u64; WORDS],
    stores: &mut Stores,
) -> Reply
    requires permitted { Permitted sizes }
    requires table_len { length table.old ≡ table_words }
    requires file_lt_files { file < sizes.files }
    requires waiter_lt_clients { answered.waiter < sizes.clients }
    requires max_files_value { entry_held table.old (file % max_files) ≡ answered }
    ensures { Leaves
        (granted_if_last sizes file sent (leaving (file_held table.old (file % max_files))
        stores.old (Reply.Answered sent)))
        (file % max_files) table.old table.new result
        stores.new }
{
    if answered.calls_out(sizes.clients) != 0 {
        return Reply::Answered(sent);
    }
    let opener = answered.waiter as usize;
    let grant = answered.grant(sizes.clients, opener, answered.mode);
    let side = side_of(table[file % MAX_FILES * ROW + (10 + opener % MAX_CLIENTS)]);
    grant_open(
        sizes,
        answered.mode,
        grant,
        side,
        opener,
        file,
        table,
        stores,
    );
    Reply::AnsweredGrant(sent, answered.waiter, grant)
}
