// The one step function: a step on the held service, a letter and words out.
ghost use Rattle.std.specs.Prelude.{◌≡◌, true, false, length};
ghost use Rattle.sizes.specs.Sizes.{Permitted};
ghost use Rattle.protocol.specs.Reply.{no_calls};
ghost use Rattle.protocol.specs.Step.{is_on_all};
ghost use Rattle.words.specs.Said.{said_room};
ghost use Rattle.service.specs.Lent.{Stepped};
ghost use Rattle.service.specs.Served.{Serves, MovesAll, ServesAll};

use crate::flags::{EMBARGOED, RECOVERING};
use crate::held_service::HeldService;
use crate::recovering::reply_to;
use crate::space::recount;
use access::read_block;
use file::{Response, close};
use protocol::{Refusal, Reply, Step};
use sizes::{MAX_CLIENTS, MAX_FILES, Sizes};
use words::{ROW, SAID, say, side_of};

impl HeldService {
    // Takes the step; where there is none, refusal 1. Answers the letter of the reply and 256 times the number of the words
    // that follow it. A refusal leaves every word.
    pub fn take_step(&mut self, given: Sizes, step: Option<Step>, words: &mut [u64; SAID]) -> u64
        requires words_len { length words.old ≡ said_room }
        ensures { Stepped given step self.old.table self.old.flags self.old.stores words.old
            self.new.table self.new.flags self.new.stores words.new result }
    {
        let Some(step) = step else {
            return say(Reply::from(Refusal::NoStep), [0; MAX_CLIENTS], words);
        };
        let sizes = given.in_force();
        if step.is_on_all() {
            return self.take_on_all(sizes, step, words);
        }
        let response = self.respond(sizes, step);
        say(response.reply, response.calls, words)
    }

    // A step on all files.
    fn take_on_all(&mut self, sizes: Sizes, step: Step, words: &mut [u64; SAID]) -> u64
        requires permitted { Permitted sizes }
        requires on_all { is_on_all step ≡ true }
        requires words_len { length words.old ≡ said_room }
        ensures { ServesAll sizes step self.old.table self.old.flags self.old.stores words.old
            self.new.table self.new.flags self.new.stores words.new result }
    {
        let before = self.counted_in(sizes);
        let said = self.step_all(sizes, step, words);
        let after = self.counted_in(sizes);
        recount(sizes.store, &mut self.table, before, after);
        said
    }

    // The same, but for the store.
    fn step_all(&mut self, sizes: Sizes, step: Step, words: &mut [u64; SAID]) -> u64
        requires permitted { Permitted sizes }
        requires on_all { is_on_all step ≡ true }
        requires words_len { length words.old ≡ said_room }
        ensures { MovesAll sizes step self.old.table self.old.flags self.old.stores words.old
            self.new.table self.new.flags self.new.stores words.new result }
    {
        match step {
            Step::Restart { client } => self.restart_client(sizes, client, words),
            Step::Embargo { client, file } => self.embargo_client(sizes, client, file, words),
            Step::Lift { client } => self.lift_embargo(sizes, client, words),
            _ => unreachable!(),
        }
    }

    // The steps on a file, on a block and on the table, by the sizes in force, the reply as a value. An arm for each kind:
    // nothing else chooses among them.
    fn respond(&mut self, sizes: Sizes, step: Step) -> Response
        requires permitted { Permitted sizes }
        requires not_on_all { is_on_all step ≡ false }
        ensures { Serves sizes step self.old.table self.old.flags self.old.stores
            self.new.table self.new.flags self.new.stores result.reply result.calls }
    {
        match step {
            Step::Open { mode, client, file } => self.open_file(sizes, mode, client, file),
            Step::Close { mode, client, file } => silent(close(
                sizes,
                self.flags[EMBARGOED + client % MAX_CLIENTS],
                self.flags[RECOVERING],
                mode,
                client,
                file,
                &mut self.table,
                &self.stores,
            )),
            Step::Read {
                client,
                file,
                block,
            } => {
                let c = client % MAX_CLIENTS;
                let own = side_of(self.table[file % MAX_FILES * ROW + (10 + c)]);
                silent(read_block(
                    sizes,
                    self.flags[EMBARGOED + c],
                    self.flags[RECOVERING],
                    self.flags[c],
                    own,
                    client,
                    file,
                    block,
                    &mut self.stores,
                ))
            }
            Step::Write {
                client,
                file,
                block,
                value,
            } => silent(self.write_file(sizes, client, file, block, value)),
            Step::Flush {
                client,
                file,
                block,
            } => silent(self.flush_file(sizes, client, file, block)),
            Step::Answer { client, file } => silent(self.answer_file(sizes, client, file)),
            Step::Crash | Step::Report { .. } | Step::End => {
                silent(reply_to(self.step_table(sizes, step)))
            }
            _ => unreachable!(),
        }
    }
}

// A reply that no call goes out with.
fn silent(reply: Reply) -> Response
    ensures { result ≡ record { reply = reply; calls = no_calls } }
{
    Response {
        reply,
        calls: [0; MAX_CLIENTS],
    }
}
