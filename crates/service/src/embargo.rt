// The steps on all files, on the held service: a client restarts, is put under embargo, or is told that it
// was. The server forgets it on every file in force, and the opens of others that this grants are said one after the
// other, by ascending file; the client drops what it has of every file in force.
ghost use Rattle.std.specs.Prelude.{◌≡◌, true, false, cond, List, ◌++◌, ℕ, ◌+◌, ◌*◌, ◌<◌, ◌≤◌, length, set};
ghost use Rattle.sizes.specs.Sizes.{Permitted, max_clients};
ghost use Rattle.protocol.specs.declared.reply.Grant.{Grant};
ghost use Rattle.protocol.specs.declared.reply.Granting.{Granting};
ghost use Rattle.decision.specs.Lists.{first_of};
ghost use Rattle.protocol.specs.Refused.{refusal_in};
ghost use Rattle.protocol.specs.Refusal.{embargo_tests};
ghost use Rattle.protocol.specs.Reply.{brought};
ghost use Rattle.words.specs.Rows.{table_words};
ghost use Rattle.words.specs.Said.{said_room, Begun, SaidSoFar};
ghost use Rattle.service.specs.Lent.{lent_flags, recovering_held};
ghost use Rattle.service.specs.Served.{Forgets, Drops, MovesAll};

use crate::flags::{EMBARGOED, FLAGS, RECOVERING};
use crate::held_service::HeldService;
use blocks::Stores;
use decision::asks_nothing;
use file::{drop_file, forget};
use protocol::{Entry, Refusal, Reply, Step, refuse_if};
use sizes::{MAX_CLIENTS, MAX_FILES, Sizes};
use words::{SAID, WORDS, entry_at, say, say_granting};

// The open of another that the reply grants, if it grants one, as the next words.
fn say_brought(reply: Reply, at: usize, words: &mut [u64; SAID]) -> usize
    requires words_len { length words.old ≡ said_room }
    requires at_bound { at + 4 ≤ said_room }
    requires by_index { (sent opener : ℕ) (g : Grant) → reply ≡ Reply.AnsweredGrant sent opener g → opener < max_clients }
    ensures by_index_2 { (words₀ pre : List ℕ) (gs : List Granting) → at ≡ length pre + 4 * length gs
        → SaidSoFar words₀ pre gs words.old
        → SaidSoFar words₀ pre (gs ++ brought reply) words.new
        × (result ≡ length pre + 4 * length (gs ++ brought reply)) }
    ensures upper_bound { result ≤ at + 4 }
{
    match reply {
        Reply::AnsweredGrant(sent, opener, grant) => {
            say_granting(opener, grant, at, words);
            at + 4
        }
        _ => at,
    }
}

// The server forgets the client on every file in force. The grants are said after the first words, `from` of them.
// Answers how many words were said.
fn forget_files(
    sizes: Sizes,
    client: usize,
    from: usize,
    table: &mut [u64; WORDS],
    stores: &mut Stores,
    words: &mut [u64; SAID],
) -> usize
    requires permitted { Permitted sizes }
    requires client_lt_clients { client < sizes.clients }
    requires table_len { length table.old ≡ table_words }
    requires words_len { length words.old ≡ said_room }
    requires from_bound { from ≤ 8 }
    ensures { (words₀ pre : List ℕ) → Begun words₀ from pre words.old → length pre ≡ from
        → Forgets sizes client sizes.files table.old
        stores.old
        words₀ pre table.new
        stores.new
        words.new result }
{
    let mut at: usize = from;
    for file in 0..sizes.files {
        let reply = forget(sizes, client, file, table, stores);
        at = say_brought(reply, at, words);
    }
    at
}

// The client drops what it has of every file in force.
fn drop_files(sizes: Sizes, client: usize, table: &mut [u64; WORDS], stores: &mut Stores)
    requires permitted { Permitted sizes }
    requires client_lt_clients { client < sizes.clients }
    requires table_len { length table.old ≡ table_words }
    ensures { Drops sizes client sizes.files table.old
        stores.old
        table.new
        stores.new }
{
    for file in 0..sizes.files {
        drop_file(sizes, client, file, table, stores);
    }
}

// The client is told: it is under embargo no more, and in a recovery it counts as reported.
fn tell(client: usize, flags: &mut [bool; FLAGS])
    requires client_lt_max_clients { client < max_clients }
    requires flags_len { length flags.old ≡ lent_flags }
    ensures { flags.new
        ≡ cond (recovering_held flags.old)
        (set (set flags.old (9 + client) false) client true)
        (set flags.old (9 + client) false) }
{
    flags[EMBARGOED + client] = false;
    if flags[RECOVERING] {
        flags[client] = true;
    }
}

// The refusal of an embargo: that of an answer, save that whether the client is under embargo is not asked.
fn embargo_refusal(
    sizes: Sizes,
    recovering: bool,
    entry: Entry,
    client: usize,
    file: usize,
) -> Result<(), Refusal>
    ensures { refusal_in result ≡ first_of (embargo_tests sizes recovering entry client file) }
{
    refuse_if(sizes.clients <= client, Refusal::NoClient)?;
    refuse_if(sizes.files <= file, Refusal::NoFile)?;
    refuse_if(recovering, Refusal::InRecovery)?;
    refuse_if(
        asks_nothing(entry.call_to(sizes.clients, client)),
        Refusal::NoCall,
    )
}

impl HeldService {
    // The client has restarted.
    pub fn restart_client(&mut self, sizes: Sizes, client: usize, words: &mut [u64; SAID]) -> u64
        requires permitted { Permitted sizes }
        requires words_len { length words.old ≡ said_room }
        ensures { MovesAll sizes (Step.Restart client) self.old.table self.old.flags
            self.old.stores
            words.old self.new.table self.new.flags
            self.new.stores
            words.new result }
    {
        if sizes.clients <= client {
            return say(Reply::from(Refusal::NoClient), [0; MAX_CLIENTS], words);
        }
        let at = forget_files(sizes, client, 0, &mut self.table, &mut self.stores, words);
        drop_files(sizes, client, &mut self.table, &mut self.stores);
        tell(client, &mut self.flags);
        75 + 256 * at as u64
    }

    // The client is put under embargo, for its callback on the file.
    pub fn embargo_client(
        &mut self,
        sizes: Sizes,
        client: usize,
        file: usize,
        words: &mut [u64; SAID],
    ) -> u64
        requires permitted { Permitted sizes }
        requires words_len { length words.old ≡ said_room }
        ensures { MovesAll sizes (Step.Embargo client file) self.old.table self.old.flags
            self.old.stores
            words.old self.new.table self.new.flags
            self.new.stores
            words.new result }
    {
        let entry = entry_at(&self.table, file % MAX_FILES);
        if let Err(refusal) = embargo_refusal(sizes, self.flags[RECOVERING], entry, client, file) {
            return say(Reply::from(refusal), [0; MAX_CLIENTS], words);
        }
        // No block was sent.
        words[0] = 0;
        let at = forget_files(sizes, client, 1, &mut self.table, &mut self.stores, words);
        self.flags[EMBARGOED + client] = true;
        65 + 256 * at as u64
    }

    // The client is told that it was under embargo.
    pub fn lift_embargo(&mut self, sizes: Sizes, client: usize, words: &mut [u64; SAID]) -> u64
        requires permitted { Permitted sizes }
        requires words_len { length words.old ≡ said_room }
        ensures { MovesAll sizes (Step.Lift client) self.old.table self.old.flags
            self.old.stores
            words.old self.new.table self.new.flags
            self.new.stores
            words.new result }
    {
        if sizes.clients <= client {
            return say(Reply::from(Refusal::NoClient), [0; MAX_CLIENTS], words);
        }
        if !self.flags[EMBARGOED + client] {
            return say(
                Reply::from(Refusal::NotUnderEmbargo),
                [0; MAX_CLIENTS],
                words,
            );
        }
        drop_files(sizes, client, &mut self.table, &mut self.stores);
        tell(client, &mut self.flags);
        say(Reply::Done, [0; MAX_CLIENTS], words)
    }
}
