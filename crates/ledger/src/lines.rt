// The writes to one block that are noted: the line and the client of the latest that is safe, of the latest that is at
// risk, and of the latest if it was lost. Line 0 stands for none.
// Stays: numbers in place of Options, and two arrays side by side. The theorems of specs/Provenance.antt speak of the
// lists of both and of line 0, and in fixed memory an Option of each would take a word more for each note.
ghost use Rattle.std.specs.Prelude.{◌≡◌, ◌%◌};
ghost use Rattle.sizes.specs.Sizes.{max_places};
ghost use Rattle.ledger.specs.Ledger.{lines_in, wrote_lines, risks_in, came_lines, lost_lines};
ghost use Rattle.ledger.specs.Ledger.{latest_in};

use crate::ledger::Ledger;
use sizes::MAX_PLACES;

// The arrays have first the safe writes of all blocks, then those at risk, then those lost.
pub const NOTES: usize = 3 * MAX_PLACES;

#[derive(Clone, Copy)]
pub struct Lines {
    pub safe: u64,
    pub saver: u8,
    pub risk: u64,
    pub risker: u8,
    pub lost: u64,
    pub loser: u8,
}

impl Lines {
    // The client writes the block on this line: a delayed write is at risk, one that is sent at once is safe, and one
    // of a client that is set aside, under embargo, is lost.
    pub fn wrote(self, line: u64, client: u8, aside: bool, delayed: bool) -> Lines
        ensures { result ≡ wrote_lines line client aside delayed self }
    {
        if aside {
            Lines {
                lost: line,
                loser: client,
                ..self
            }
        } else if delayed {
            Lines {
                risk: line,
                risker: client,
                lost: 0,
                loser: 0,
                ..self
            }
        } else {
            Lines {
                safe: line,
                saver: client,
                risk: 0,
                risker: 0,
                lost: 0,
                loser: 0,
            }
        }
    }

    // Whether a write of the client is at risk.
    pub fn risks(self, client: u8) -> bool
        ensures { result ≡ risks_in client self }
    {
        !(self.risk == 0) & (self.risker == client)
    }

    // What the client had at risk has come to the server.
    pub fn came(self, client: u8) -> Lines
        ensures { result ≡ came_lines client self }
    {
        if self.risks(client) {
            return Lines {
                safe: self.risk,
                saver: self.risker,
                risk: 0,
                risker: 0,
                ..self
            };
        }
        self
    }

    // What the client had at risk is lost. Where a later write was lost before, that one stays noted.
    pub fn lost(mut self, client: u8) -> Lines
        ensures { result ≡ lost_lines client self }
    {
        if !self.risks(client) {
            return self;
        }
        if self.lost == 0 {
            self.lost = self.risk;
            self.loser = self.risker;
        }
        self.risk = 0;
        self.risker = 0;
        self
    }

    // The latest write that is not lost, and its client.
    pub fn latest(self) -> u64
        ensures { result ≡ (latest_in self).0 }
    {
        if self.risk == 0 {
            return self.safe;
        }
        self.risk
    }

    pub fn writer(self) -> u8
        ensures { result ≡ (latest_in self).1 }
    {
        if self.risk == 0 {
            return self.saver;
        }
        self.risker
    }
}

impl Ledger {
    // The lines of the block at the place, which is wrapped.
    pub fn lines_in(&self, place: usize) -> Lines
        ensures { result ≡ lines_in self.now (place % max_places) }
    {
        let at = place % MAX_PLACES;
        Lines {
            safe: self.written[at],
            saver: self.writers[at],
            risk: self.written[MAX_PLACES + at],
            risker: self.writers[MAX_PLACES + at],
            lost: self.written[2 * MAX_PLACES + at],
            loser: self.writers[2 * MAX_PLACES + at],
        }
    }
}
