// The steps on one file that use, take or free places of the store.
ghost use Rattle.std.specs.Prelude.{◌≡◌, true, false, cond, ltb, ◌+◌, ◌%◌, ◌<◌, ◌≤◌, length, get_or, set};
ghost use Rattle.sizes.specs.Sizes.{Permitted, max_clients, max_files, max_blocks, place, first_cell, first_place};
ghost use Rattle.protocol.specs.Reply.{no_calls, is_refused};
ghost use Rattle.words.specs.Rows.{listed};
ghost use Rattle.service.specs.Lent.{state_flags, lent_flags};
ghost use Rattle.service.specs.Served.{Serves, sent_in, marked};

use crate::flags::{EMBARGOED, FLAGS, RECOVERING, USED};
use crate::held_service::HeldService;
use crate::space::{is_any_dirty, recount};
use access::write_block;
use blocks::{cell_of, first_cell, first_place, place_of};
use decision::one_if;
use file::{Response, answer, flush, open};
use protocol::{Reply, Step};
use records::Mode;
use sizes::{MAX_BLOCKS, MAX_CELLS, MAX_CLIENTS, MAX_FILES, Sizes};
use words::{ROW, ROWS, side_of};

// Which blocks of the file are dirty at the client; a flag for each that there may be.
fn dirty_blocks(client: usize, file: usize, dirty: &[bool; MAX_CELLS]) -> [bool; MAX_BLOCKS]
    ensures { result ≡ listed max_blocks
        (λ b. get_or dirty.now (first_cell (client % max_clients) (file % max_files) + b) false) }
{
    let base = first_cell(client, file);
    let mut found = [false; MAX_BLOCKS];
    found.copy_from_slice(&dirty[base..base + MAX_BLOCKS]);
    found
}

// How many blocks a reply tells that an answer sent.
fn sent_in(reply: Reply) -> usize
    ensures { result ≡ sent_in reply }
{
    match reply {
        Reply::Answered(sent) => sent,
        Reply::AnsweredGrant(sent, _, _) => sent,
        _ => 0,
    }
}

// The blocks of the file that an answer sent are used, where the reply tells that it sent some.
fn mark_sent(
    reply: Reply,
    count: usize,
    file: usize,
    sent: [bool; MAX_BLOCKS],
    flags: &mut [bool; FLAGS],
)
    requires count_le_max_blocks { count ≤ max_blocks }
    requires flags_len { length flags.old ≡ lent_flags }
    ensures { flags.new ≡ cond (ltb 0 (sent_in reply)) (marked count (first_place (file % max_files)) sent flags.old)
        flags.old }
{
    if sent_in(reply) == 0 {
        return;
    }
    let to = USED + first_place(file);
    for b in 0..count {
        flags[to + b] |= sent[b];
    }
}

// A block that is written is used, unless the write stays at the client.
fn mark_unless(stays: bool, file: usize, block: usize, flags: &mut [bool; FLAGS])
    requires { length flags.old ≡ lent_flags }
    ensures { flags.new ≡ cond stays flags.old
        (set flags.old (state_flags + place (file % max_files) (block % max_blocks)) true) }
{
    if !stays {
        flags[USED + place_of(file, block)] = true;
    }
}

impl HeldService {
    // An open. The copies that its grant drops may free places, where some are dirty.
    pub fn open_file(&mut self, sizes: Sizes, mode: Mode, client: usize, file: usize) -> Response
        requires permitted { Permitted sizes }
        ensures flags { self.new.flags ≡ self.old.flags }
        ensures serves { Serves sizes (Step.Open mode client file) self.old.table self.old.flags self.old.stores
            self.new.table self.new.flags self.new.stores result.reply result.calls }
    {
        let f = file % MAX_FILES;
        let drops = is_any_dirty(first_cell(client, file), &self.stores.dirty);
        let before = self.counted_if(drops, sizes, f);
        let response = open(
            sizes,
            self.flags[EMBARGOED + client % MAX_CLIENTS],
            self.flags[RECOVERING],
            mode,
            client,
            file,
            &mut self.table,
            &mut self.stores,
        );
        let after = self.counted_if(drops, sizes, f);
        recount(sizes.store, &mut self.table, before, after);
        response
    }

    // A write. One to a block that is neither used nor reserved takes a free place; one that reaches the server uses it.
    pub fn write_file(
        &mut self,
        sizes: Sizes,
        client: usize,
        file: usize,
        block: usize,
        value: u64,
    ) -> Reply
        requires permitted { Permitted sizes }
        ensures { Serves sizes (Step.Write client file block value) self.old.table self.old.flags
            self.old.stores
            self.new.table self.new.flags
            self.new.stores
            result no_calls }
    {
        let c = client % MAX_CLIENTS;
        let own = side_of(self.table[file % MAX_FILES * ROW + (10 + c)]);
        let takes = self.takes_place(sizes.clients, client, file, block);
        let full = takes & ((self.table[ROWS] == 0) | (sizes.store == 0));
        let reply = write_block(
            sizes,
            self.flags[EMBARGOED + c],
            self.flags[RECOVERING],
            self.flags[c],
            own,
            takes,
            full,
            client,
            file,
            block,
            value,
            &mut self.stores,
        );
        if reply.is_refused() {
            return reply;
        }
        mark_unless(own.opens.caching, file, block, &mut self.flags);
        if takes {
            let counted = self.flags[USED + place_of(file, block)]
                | self.stores.dirty[cell_of(client, file, block)];
            recount(sizes.store, &mut self.table, 0, one_if(counted));
        }
        reply
    }

    // A flush: its block is used.
    pub fn flush_file(&mut self, sizes: Sizes, client: usize, file: usize, block: usize) -> Reply
        requires permitted { Permitted sizes }
        ensures { Serves sizes (Step.Flush client file block) self.old.table self.old.flags
            self.old.stores
            self.new.table self.new.flags
            self.new.stores
            result no_calls }
    {
        let reply = flush(
            sizes,
            self.flags[EMBARGOED + client % MAX_CLIENTS],
            self.flags[RECOVERING],
            client,
            file,
            block,
            &mut self.table,
            &mut self.stores,
        );
        if !reply.is_refused() {
            self.flags[USED + place_of(file, block)] = true;
        }
        reply
    }

    // An answer: the blocks that it sends are used. Those that an invalidation, or the grant that it brings, drops dirty may
    // free places.
    pub fn answer_file(&mut self, sizes: Sizes, client: usize, file: usize) -> Reply
        requires permitted { Permitted sizes }
        ensures { Serves sizes (Step.Answer client file) self.old.table self.old.flags
            self.old.stores
            self.new.table self.new.flags
            self.new.stores
            result no_calls }
    {
        let f = file % MAX_FILES;
        let own = dirty_blocks(client, file, &self.stores.dirty);
        let before = self.counted_on(sizes, f);
        let reply = answer(
            sizes,
            self.flags[EMBARGOED + client % MAX_CLIENTS],
            self.flags[RECOVERING],
            client,
            file,
            &mut self.table,
            &mut self.stores,
        );
        mark_sent(reply, sizes.blocks, file, own, &mut self.flags);
        let after = self.counted_on(sizes, f);
        recount(sizes.store, &mut self.table, before, after);
        reply
    }
}
