// Lines noted in the ledger.
ghost use Rattle.std.specs.Prelude.{◌≡◌, cond, ◌+◌, ◌%◌, ◌≤◌};
ghost use Rattle.sizes.specs.Sizes.{max_clients, max_files, max_blocks, max_places};
ghost use Rattle.ledger.specs.Ledger.{is_waiting, wait_noted, embargo_noted, copy_noted, write_noted};
ghost use Rattle.ledger.specs.declared.lines.Lines.{Lines};
ghost use Rattle.ledger.specs.Ledger.{lines_in, with_lines, came_from, lost_below, noted};
ghost use Rattle.ledger.specs.Wrapped.{wrapped_step};

use crate::ledger::Ledger;
use crate::lines::Lines;
use blocks::{cell_of, first_place, place_of};
use protocol::{Reply, Step};
use sizes::{MAX_BLOCKS, MAX_CLIENTS, MAX_FILES, MAX_PLACES};

fn is_waiting(reply: Reply) -> bool
    ensures { result ≡ is_waiting reply }
{
    matches!(reply, Reply::Waiting)
}

impl Ledger {
    // Notes a line: its number, its step, the reply to it, and whether the client could cache the block, held it and was
    // set aside, under embargo, before the step. The numbers are wrapped: a step that names nothing is refused, and a
    // refused step notes nothing.
    pub fn note_line(
        &mut self,
        line: u64,
        step: Step,
        reply: Reply,
        caching: bool,
        held: bool,
        aside: bool,
    )
        ensures { self.new ≡ noted line (wrapped_step step) reply caching held aside self.old }
    {
        let accepted = !reply.is_refused();
        match step {
            Step::Open { file, .. } => self.note_wait(is_waiting(reply), line, file),
            Step::Read {
                client,
                file,
                block,
            } => self.note_copy(accepted & (caching & !held), line, client, file, block),
            Step::Write {
                client,
                file,
                block,
                ..
            } => {
                self.note_write(
                    accepted,
                    line,
                    client,
                    place_of(file, block),
                    aside,
                    caching,
                );
                self.note_copy(accepted & caching, line, client, file, block);
            }
            Step::Flush {
                client,
                file,
                block,
            } => self.note_came(accepted, client, place_of(file, block), 1),
            Step::Answer { client, file } => {
                self.note_came(accepted, client, first_place(file), MAX_BLOCKS);
            }
            Step::Restart { client } => {
                self.note_lost(accepted, client);
                self.note_embargo(accepted, 0, client);
            }
            Step::Embargo { client, .. } => {
                self.note_lost(accepted, client);
                self.note_embargo(accepted, line, client);
            }
            Step::Lift { client } => self.note_embargo(accepted, 0, client),
            _ => {}
        }
    }

    // The line is noted, if the test holds: at the file, at the client, or at the client's copy of the block.
    fn note_wait(&mut self, test: bool, line: u64, file: usize)
        ensures { self.new ≡ wait_noted test line (file % max_files) self.old }
    {
        if test {
            self.since[file % MAX_FILES] = line;
        }
    }

    fn note_embargo(&mut self, test: bool, line: u64, client: usize)
        ensures { self.new ≡ cond test (embargo_noted line (client % max_clients) self.old) self.old }
    {
        if test {
            self.since[MAX_FILES + client % MAX_CLIENTS] = line;
        }
    }

    fn note_copy(&mut self, test: bool, line: u64, client: usize, file: usize, block: usize)
        ensures { self.new
            ≡ copy_noted test line (client % max_clients) (file % max_files) (block % max_blocks) self.old }
    {
        if test {
            self.copied[cell_of(client, file, block)] = line;
        }
    }

    // The client's write to the block at the place, which is wrapped, is noted, if the test holds.
    fn note_write(
        &mut self,
        test: bool,
        line: u64,
        client: usize,
        at: usize,
        aside: bool,
        delayed: bool,
    )
        ensures { self.new
            ≡ cond test
            (write_noted line (client % max_clients) (at % max_places) aside delayed self.old)
            self.old }
    {
        if test {
            self.change_lines(at, |lines| {
                lines.wrote(line, (client % MAX_CLIENTS) as u8, aside, delayed)
            });
        }
    }

    // What the client had at risk has come to the server, if the test holds, at so many places from the first on.
    fn note_came(&mut self, test: bool, client: usize, first: usize, count: usize)
        requires { first + count ≤ max_places }
        ensures { self.new ≡ cond test (came_from (client % max_clients) first count self.old) self.old }
    {
        if !test {
            return;
        }
        for k in 0..count {
            self.change_lines(first + k, |lines| lines.came((client % MAX_CLIENTS) as u8));
        }
    }

    // What the client had at risk is lost, if the test holds, at every place.
    fn note_lost(&mut self, test: bool, client: usize)
        ensures { self.new ≡ cond test (lost_below (client % max_clients) max_places self.old) self.old }
    {
        if !test {
            return;
        }
        for k in 0..MAX_PLACES {
            self.change_lines(k, |lines| lines.lost((client % MAX_CLIENTS) as u8));
        }
    }

    // The lines of the block at the place, which is wrapped, are changed.
    fn change_lines<F: Fn(Lines) -> Lines>(&mut self, at: usize, change: F)
        requires { F.IsAlwaysCallable change }
        ensures { (h : Lines → Lines)
            → ((x y : Lines) → F.post change x y → y ≡ h x)
            → self.new ≡ with_lines (at % max_places) (h (lines_in self.old (at % max_places))) self.old }
    {
        let lines = self.lines_in(at);
        self.put_lines(change(lines), at);
    }

    // Other lines of that block.
    fn put_lines(&mut self, lines: Lines, place: usize)
        ensures { self.new ≡ with_lines (place % max_places) lines self.old }
    {
        let at = place % MAX_PLACES;
        self.written[at] = lines.safe;
        self.written[MAX_PLACES + at] = lines.risk;
        self.written[2 * MAX_PLACES + at] = lines.lost;
        self.writers[at] = lines.saver;
        self.writers[MAX_PLACES + at] = lines.risker;
        self.writers[2 * MAX_PLACES + at] = lines.loser;
    }
}
