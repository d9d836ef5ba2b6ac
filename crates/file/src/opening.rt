// An open: the entry and the client's side are loaded, and where the open waits two words are stored, the head and the
// callbacks.
ghost use Rattle.std.specs.Prelude.{◌≡◌, List, ◌%◌, length};
ghost use Rattle.sizes.specs.Sizes.{Permitted, max_files};
ghost use Rattle.words.specs.Rows.{file_held, table_words};
ghost use Rattle.file.specs.FileStep.{file_step};
ghost use Rattle.file.specs.Held.{Holds};

use crate::granting::grant_open;
use crate::refusal::open_refusal;
use crate::row::put_head;
use blocks::Stores;
use protocol::{Reply, Step, count_calls};
use records::Mode;
use sizes::{MAX_CLIENTS, MAX_FILES, Sizes};
use words::{ROW, WORDS, entry_at, side_of};

// The reply to an open, and the callbacks that it sends: a kind for each client, 0 for none.
#[derive(Clone, Copy)]
pub struct Response {
    pub reply: Reply,
    pub calls: [u8; MAX_CLIENTS],
}

pub fn open(
    sizes: Sizes,
    embargoed: bool,
    recovering: bool,
    mode: Mode,
    client: usize,
    file: usize,
    table: &mut [u64; WORDS],
    stores: &mut Stores,
) -> Response
    requires permitted { Permitted sizes }
    requires table_len { length table.old ≡ table_words }
    ensures { Holds
        (file_step sizes embargoed recovering (file_held table.old (file % max_files))
        stores.old
        (Step.Open mode client file))
        (file % max_files) table.old table.new result.reply result.calls
        stores.new }
{
    let f = file % MAX_FILES;
    let c = client % MAX_CLIENTS;
    let row = f * ROW;
    let entry = entry_at(table, f);
    let own = side_of(table[row + (10 + c)]);
    if let Err(refusal) = open_refusal(
        sizes, embargoed, recovering, entry, own, mode, client, file,
    ) {
        return Response {
            reply: Reply::from(refusal),
            calls: [0; MAX_CLIENTS],
        };
    }
    let calls = entry.calls_due(sizes.clients, client, mode);
    if count_calls(calls, sizes.clients) == 0 {
        let grant = entry.grant(sizes.clients, client, mode);
        grant_open(sizes, mode, grant, own, client, file, table, stores);
        return Response {
            reply: Reply::Granted(grant),
            calls: [0; MAX_CLIENTS],
        };
    }
    let waits = entry.waiting(sizes.clients, client, mode, calls);
    put_head(waits, f, table);
    Response {
        reply: Reply::Waiting,
        calls,
    }
}
