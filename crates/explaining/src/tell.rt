// One line explained: what it finds is looked at, its text is written, and the line is noted beside the service.
ghost use Rattle.std.specs.Prelude.{◌≡◌, Bool, Err, None, false, List, ℕ, ◌+◌, ◌/◌, ◌%◌, ◌≤◌, length, get_or};
ghost use Rattle.sizes.specs.Sizes.{max_clients, max_files, max_blocks, Permitted, cell};
ghost use Rattle.protocol.specs.declared.reply.Granting.{Granting};
ghost use Rattle.protocol.specs.declared.reply.Reply.{Reply};
ghost use Rattle.protocol.specs.Step.{client_of};
ghost use Rattle.words.specs.Words.{side_held};
ghost use Rattle.words.specs.Rows.{table_words, word_at};
ghost use Rattle.words.specs.Said.{said_room, calls_said, reply_said, Says};
ghost use Rattle.service.specs.declared.service.Service.{Service};
ghost use Rattle.service.specs.Lent.{lent_flags};
ghost use Rattle.stepfile.specs.declared.setting.NoSizes.TheVariants.{Missing};
ghost use Rattle.writer.specs.Buffer.{WroteIfRoom};
ghost use Rattle.ledger.specs.declared.ledger.Ledger.{Ledger};
ghost use Rattle.ledger.specs.Ledger.{lines_at, noted, told_of};
ghost use Rattle.ledger.specs.Refusals.{refusals_after};
ghost use Rattle.ledger.specs.Wrapped.{wrapped_step};
ghost use Rattle.sentences.specs.Scene.{aside_held, scene_held, whole_held};
ghost use Rattle.sentences.specs.Explained.{said_of, explained_text, explained_room};
ghost use Rattle.explaining.specs.Lines.{setting_at, state_held, TellsLine};

use blocks::{Stores, cell_of};
use ledger::{Ledger, REFUSAL_NUMBERS, Told, count_refusal};
use playing::{choose_sizes, reply_to};
use protocol::{Numbers, Refusal, Reply, Step, asked};
use sentences::{explain_setting, explain_step};
use service::{FLAGS, HeldService};
use sizes::{MAX_CLIENTS, MAX_FILES, Sizes};
use stepfile::{NoSizes, Setting};
use words::{ROW, SAID, WORDS, reply_of, say, side_of};

// What a line looks at before its step is taken.
#[derive(Clone, Copy)]
pub struct Seen {
    // What is told of a read.
    pub told: Told,
    // Whether the client may cache the file, and holds the block.
    pub caching: bool,
    pub holds: bool,
}

// Looks at what the step names, in the row of its file before the step and beside it. The numbers are wrapped.
pub fn look(named: Numbers, before: &[u64; WORDS], stores: &Stores, ledger: &Ledger) -> Seen
    requires { length before.now ≡ table_words }
    ensures caching_value { result.caching
        ≡ (side_held (word_at before.now (named.file % max_files) (10 + named.client % max_clients))).opens.caching }
    ensures told_value { result.told ≡ told_of result.caching stores.now ledger.now
        (named.client % max_clients) (named.file % max_files) (named.block % max_blocks) }
    ensures holds_value { result.holds ≡ get_or stores.now.held
        (cell (named.client % max_clients) (named.file % max_files) (named.block % max_blocks)) false }
{
    let client = named.client;
    let file = named.file;
    let block = named.block;
    let own = side_of(before[file % MAX_FILES * ROW + (10 + client % MAX_CLIENTS)]);
    let caching = own.opens.caching;
    Seen {
        told: ledger.read_told(caching, client, file, block, stores),
        caching,
        holds: stores.held[cell_of(client, file, block)],
    }
}

// A line whose step was taken, by the sizes in force: it said this, and this was seen before; `came` are the flags as they
// came to the step.
pub fn tell_step(
    out: &mut [u8],
    at: usize,
    line: u64,
    fresh: bool,
    sizes: Sizes,
    step: Step,
    said: u64,
    words: &[u64; SAID],
    before: &[u64; WORDS],
    came: &[bool; FLAGS],
    seen: Seen,
    service: &HeldService,
    ledger: &mut Ledger,
    refusals: &mut [u64; REFUSAL_NUMBERS],
) -> usize
    requires permitted { Permitted sizes }
    requires said_bound { said / 256 ≤ said_room }
    requires words_len { length words.now ≡ said_room }
    requires before_len { length before.now ≡ table_words }
    requires came_len { length came.now ≡ lent_flags }
    ensures wrote_if_room { (reply : Reply) (calls : List ℕ) (granted : List Granting)
        → Says said words.now reply calls granted
        → calls_said said words.now ≡ calls
        → WroteIfRoom explained_room out.old at
        (explained_text line reply calls granted
        (said_of fresh
        (scene_held sizes step before.now service.now.table came.now
        service.now.stores.dirty ledger.old.since seen.told seen.caching)
        (whole_held before.now service.now.table
        (lines_at ledger.old))
        step calls reply))
        out.new result }
    ensures upper_bound { result ≤ at + explained_room }
    ensures since_after { ledger.new
        ≡ noted line (wrapped_step step) (reply_said said words.now) seen.caching seen.holds
        (aside_held came.now (client_of step))
        ledger.old }
    ensures refusals_after { refusals.new
        ≡ refusals_after (reply_said said words.now) refusals.old }
{
    let named = asked(step);
    let told = seen.told;
    let next = explain_step(
        out,
        at,
        line,
        fresh,
        sizes,
        step,
        said,
        words,
        before,
        came,
        service,
        ledger,
        told,
        seen.caching,
    );
    let reply = reply_of(said, words);
    ledger.note_line(
        line,
        step,
        reply,
        seen.caching,
        seen.holds,
        came[MAX_CLIENTS + 1 + named.client % MAX_CLIENTS],
    );
    count_refusal(reply, refusals);
    next
}

// The sizes after a setting, and the offset past its text.
#[derive(Clone, Copy)]
pub struct Set {
    pub sizes: Sizes,
    pub to: usize,
}

// A line that sets the sizes.
pub fn tell_setting(
    out: &mut [u8],
    at: usize,
    number: u64,
    sizes: Sizes,
    setting: Setting,
    service: &mut HeldService,
    refusals: &mut [u64; REFUSAL_NUMBERS],
) -> Set
    ensures tells_line { (fresh : Bool) (l : Ledger) (text : List ℕ)
        → setting ≡ setting_at fresh number text
        → TellsLine fresh
        (state_held sizes service.old.table service.old.flags
        service.old.stores l
        refusals.old)
        number text None out.old at
        (state_held result.sizes service.new.table service.new.flags
        service.new.stores l
        refusals.new)
        out.new result.to }
{
    let chosen = choose_sizes(sizes, setting, service);
    let mut words = [0u64; SAID];
    let reply = reply_to(setting);
    let said = say(reply, [0; MAX_CLIENTS], &mut words);
    count_refusal(reply, refusals);
    Set {
        sizes: chosen,
        to: explain_setting(out, at, number, said, &words, setting),
    }
}

// A line that gives no step, and sets nothing.
pub fn tell_no_step(
    out: &mut [u8],
    at: usize,
    number: u64,
    words: &mut [u64; SAID],
    refusals: &mut [u64; REFUSAL_NUMBERS],
) -> usize
    requires { length words.old ≡ said_room }
    ensures tells_line { (fresh : Bool) (s : Service) (l : Ledger) (text : List ℕ)
        → Err Missing ≡ setting_at fresh number text
        → TellsLine fresh (record { service = s; ledger = l; refusals = refusals.old })
        number text None out.old at
        (record { service = s; ledger = l; refusals = refusals.new })
        out.new result }
    ensures words_len_unchanged { length words.new ≡ length words.old }
{
    let said = say(Reply::from(Refusal::NoStep), [0; MAX_CLIENTS], words);
    count_refusal(Reply::from(Refusal::NoStep), refusals);
    explain_setting(out, at, number, said, words, Err(NoSizes::Missing))
}
