// What is said of a step, by its reply.
ghost use Rattle.std.specs.Prelude.{◌+◌, ◌≤◌, ◌≡◌, [], length};
ghost use Rattle.sizes.specs.Sizes.{Permitted};
ghost use Rattle.words.specs.Rows.{table_words};
ghost use Rattle.service.specs.Lent.{lent_flags};
ghost use Rattle.ledger.specs.Ledger.{lines_at};
ghost use Rattle.writer.specs.Buffer.{Wrote};
ghost use Rattle.sentences.specs.Scene.{scene_held, whole_held};
ghost use Rattle.sentences.specs.Explained.{said_of, besides_text, embargoed_text};

use crate::clash::put_clash;
use crate::forgotten::{put_files_open, put_forgotten};
use crate::refused::put_refused;
use crate::scene::{embargo_since, embargoed_in, is_aside, reported_in, side_in};
use ledger::{Ledger, Told};
use phrases::{
    mode_by_kind, put_answer, put_client, put_done, put_grant, put_read, put_still, put_text,
    put_wait,
};
use protocol::{Refusal, Reply, Step, asked};
use service::{FLAGS, HeldService};
use sizes::{MAX_CLIENTS, MAX_FILES, Sizes};
use words::{ROW, WORDS, entry_at, mode_of};

// The sentence of a step that is answered so, with these callbacks. The words before the step are those that
// keep_before has kept; the service is that after it, and the flags and the ledger those before it.
pub fn put_sentence(
    out: &mut [u8],
    at: usize,
    fresh: bool,
    sizes: Sizes,
    step: Step,
    reply: Reply,
    calls: [u8; MAX_CLIENTS],
    before: &[u64; WORDS],
    came: &[bool; FLAGS],
    service: &HeldService,
    ledger: &Ledger,
    told: Told,
    caching: bool,
) -> usize
    requires permitted { Permitted sizes }
    requires at_in_bounds { at + 55427 ≤ length out.old }
    requires before_len { length before.now ≡ table_words }
    requires came_len { length came.now ≡ lent_flags }
    ensures wrote { Wrote out.old at
        (said_of fresh
        (scene_held sizes step before.now service.now.table came.now
        service.now.stores.dirty ledger.now.since told caching)
        (whole_held before.now service.now.table
        (lines_at ledger.now))
        step calls reply)
        out.new result }
    ensures upper_bound { result ≤ at + 55427 }
{
    let named = asked(step);
    let client = named.client;
    let file = named.file;
    let row = file % MAX_FILES;
    match reply {
        Reply::Granted(grant) => {
            let mode = mode_by_kind(named.kind);
            let own = side_in(before, row, client);
            put_grant(out, at, mode, grant, own, client, file)
        }
        Reply::Waiting => {
            let mode = mode_by_kind(named.kind);
            let entry = entry_at(before, row);
            put_wait(out, at, sizes.clients, entry, mode, client, file, calls)
        }
        Reply::Value(_) => {
            let aside = is_aside(came, client);
            let embargo = embargo_since(&ledger.since, client);
            put_read(
                out,
                at,
                fresh,
                told,
                aside,
                embargo,
                client,
                file,
                named.block,
            )
        }
        Reply::Refused(number) => {
            if number == Refusal::ReportsClash.number() {
                return put_clash(out, at, sizes, client, &service.table, came);
            }
            let reported = reported_in(came);
            let embargoed = embargoed_in(came);
            let entry = entry_at(before, row);
            let begun = embargo_since(&ledger.since, client);
            put_refused(
                out,
                at,
                sizes,
                came,
                &service.stores.dirty,
                reported,
                embargoed,
                entry,
                ledger.since[row],
                begun,
                step,
                number,
            )
        }
        Reply::Answered(sent) => {
            if let Step::Embargo { client, .. } = step {
                return put_embargoed(out, at, sizes, client, before, &service.table, ledger);
            }
            let after = entry_at(&service.table, row);
            let still = put_answer(out, at, sent, client, file);
            put_still(out, still, sizes.clients, after)
        }
        Reply::AnsweredGrant(sent, opener, grant) => {
            if let Step::Embargo { client, .. } = step {
                return put_embargoed(out, at, sizes, client, before, &service.table, ledger);
            }
            let mode = mode_of(before[row * ROW + 1]);
            let own = side_in(before, row, opener as usize);
            let open = put_answer(out, at, sent, client, file);
            let granted = put_text(out, open, b"; ");
            put_grant(out, granted, mode, grant, own, opener as usize, file)
        }
        Reply::Done => {
            let aside = is_aside(came, client);
            let embargo = embargo_since(&ledger.since, client);
            let more = put_done(out, at, caching, aside, embargo, step);
            put_besides(out, more, sizes, step, before, &service.table, ledger)
        }
    }
}

// What is said of an embargo.
fn put_embargoed(
    out: &mut [u8],
    at: usize,
    sizes: Sizes,
    client: usize,
    before: &[u64; WORDS],
    table: &[u64; WORDS],
    ledger: &Ledger,
) -> usize
    requires permitted { Permitted sizes }
    requires at_in_bounds { at + 55315 ≤ length out.old }
    requires before_len { length before.now ≡ table_words }
    requires table_len { length table.now ≡ table_words }
    ensures wrote { Wrote out.old at
        (embargoed_text sizes
        (whole_held before.now table.now
        (lines_at ledger.now))
        client)
        out.new result }
    ensures upper_bound { result ≤ at + 55315 }
{
    let word = put_client(out, at, client);
    let tail = put_text(out, word, b" is put under embargo");
    put_forgotten(out, tail, sizes, client, before, table, ledger)
}

// What is said besides of a restart and of a lift.
fn put_besides(
    out: &mut [u8],
    at: usize,
    sizes: Sizes,
    step: Step,
    before: &[u64; WORDS],
    table: &[u64; WORDS],
    ledger: &Ledger,
) -> usize
    requires permitted { Permitted sizes }
    requires at_in_bounds { at + 55266 ≤ length out.old }
    requires before_len { length before.now ≡ table_words }
    requires table_len { length table.now ≡ table_words }
    ensures wrote { Wrote out.old at
        (besides_text sizes
        (whole_held before.now table.now
        (lines_at ledger.now))
        step)
        out.new result }
    ensures upper_bound { result ≤ at + 55266 }
{
    match step {
        Step::Restart { client } => put_forgotten(out, at, sizes, client, before, table, ledger),
        Step::Lift { client } => put_files_open(out, at, sizes, client, before),
        _ => at,
    }
}
