// The steps on the table, on the held service: a crash, a report, and the end of a recovery. They are called
// from two places, the one step function and the reading of an image, so that a program keeps them out of its loop.
ghost use Rattle.std.specs.Prelude.{◌≡◌, Bool, true, false, List, ℕ, ◌<◌, length};
ghost use Rattle.sizes.specs.Sizes.{Permitted};
ghost use Rattle.protocol.specs.Reply.{no_calls};
ghost use Rattle.protocol.specs.Refused.{refusal_in};
ghost use Rattle.protocol.specs.Step.{is_on_table};
ghost use Rattle.blocks.specs.declared.stores.Stores.{Stores};
ghost use Rattle.words.specs.Rows.{table_words};
ghost use Rattle.service.specs.Lent.{lent_flags};
ghost use Rattle.service.specs.Served.{reply_numbered, Moves, Serves};

use crate::clashing::clash_file;
use crate::flags::{EMBARGOED, FLAGS, RECOVERING, put_recovery, recovery_of};
use crate::held_service::HeldService;
use crate::space::{recount, used_in};
use protocol::{Refusal, Reply, Step, refuse_if};
use sizes::{MAX_CLIENTS, Sizes};
use table::{crash_rows, end_refusal, report_refusal, report_rows};
use words::{ROWS, WORDS};

// The reply to a step on the table: it is done, or refused.
pub fn reply_to(outcome: Result<(), Refusal>) -> Reply
    ensures { result ≡ reply_numbered (refusal_in outcome) }
{
    match outcome {
        Ok(()) => Reply::Done,
        Err(refusal) => Reply::from(refusal),
    }
}

// A crash: what is not used is free.
fn crash_store(sizes: Sizes, table: &mut [u64; WORDS], flags: &mut [bool; FLAGS])
    requires permitted { Permitted sizes }
    requires table_len { length table.old ≡ table_words }
    requires flags_len { length flags.old ≡ lent_flags }
    ensures { (a : Stores) → Serves sizes Step.Crash table.old flags.old a
        table.new flags.new a Reply.Done no_calls }
{
    crash(sizes, table, flags);
    let used = used_in(sizes, flags);
    table[ROWS] = sizes.store.saturating_sub(used) as u64;
}

// The reports are lost, of the entries all but the versions, and recovery begins.
fn crash(sizes: Sizes, table: &mut [u64; WORDS], flags: &mut [bool; FLAGS])
    requires permitted { Permitted sizes }
    requires table_len { length table.old ≡ table_words }
    requires flags_len { length flags.old ≡ lent_flags }
    ensures { (a : Stores) → Moves false false sizes Step.Crash table.old flags.old a
        table.new flags.new a Reply.Done no_calls }
{
    let recovery = recovery_of(flags);
    let begun = recovery.crash(sizes);
    crash_rows(sizes, table);
    put_recovery(flags, begun.recovery);
}

// Recovery ends, and the reports are forgotten.
fn end(sizes: Sizes, flags: &mut [bool; FLAGS]) -> Result<(), Refusal>
    requires permitted { Permitted sizes }
    requires flags_len { length flags.old ≡ lent_flags }
    ensures { (t : List ℕ) (a : Stores) → Moves false false sizes Step.End t flags.old a
        t flags.new a (reply_numbered (refusal_in result)) no_calls }
{
    let recovery = recovery_of(flags);
    end_refusal(
        sizes,
        recovery.recovering,
        recovery.reported,
        recovery.embargoed,
    )?;
    let done = recovery.end(sizes);
    put_recovery(flags, done.recovery);
    Ok(())
}

impl HeldService {
    // A report is tested whole before any of it is taken; the rows are looked at where nothing else refuses it. It takes a
    // place for each block that it reserves.
    fn report(&mut self, sizes: Sizes, client: usize) -> Result<(), Refusal>
        requires permitted { Permitted sizes }
        ensures stores { self.new.stores ≡ self.old.stores }
        ensures serves { Serves sizes (Step.Report client) self.old.table self.old.flags self.old.stores
            self.new.table self.new.flags self.new.stores (reply_numbered (refusal_in result)) no_calls }
    {
        let own = client % MAX_CLIENTS;
        report_refusal(
            sizes,
            self.flags[EMBARGOED + own],
            self.flags[RECOVERING],
            self.flags[own],
            client,
        )?;
        refuse_if(
            clash_file(sizes, client, &self.table, &self.flags).is_some(),
            Refusal::ReportsClash,
        )?;
        let taken = self.reserved_anew(sizes, client);
        report_rows(sizes, client, &mut self.table);
        self.flags[client] = true;
        recount(sizes.store, &mut self.table, 0, taken);
        Ok(())
    }

    // A crash, a report or the end of a recovery. Another step is not taken.
    pub fn step_table(&mut self, sizes: Sizes, step: Step) -> Result<(), Refusal>
        requires { Permitted sizes }
        ensures stores { self.new.stores ≡ self.old.stores }
        ensures serves { is_on_table step ≡ true
            → Serves sizes step self.old.table self.old.flags self.old.stores
            self.new.table self.new.flags self.new.stores (reply_numbered (refusal_in result)) no_calls }
    {
        match step {
            Step::Crash => {
                crash_store(sizes, &mut self.table, &mut self.flags);
                Ok(())
            }
            Step::Report { client } => self.report(sizes, client),
            Step::End => end(sizes, &mut self.flags),
            _ => Ok(()),
        }
    }
}
