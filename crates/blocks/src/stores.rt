// What the server and the clients hold of the blocks: the server's blocks, and the clients' copies of them with their
// flags, which stand in the same places.
ghost use Rattle.std.specs.Prelude.{◌≡◌, false, cond, not, ◌+◌, ◌≤◌, get_or};
ghost use Rattle.sizes.specs.Sizes.{max_blocks, max_places, max_cells};
ghost use Rattle.decision.specs.Lists.{count as tally};
ghost use Rattle.decision.specs.Callback.{writes_back};
ghost use Rattle.decision.specs.Callback.{invalidates as drops};
ghost use Rattle.protocol.specs.Client.{kept, sent};

use crate::blocks::count_dirty;
use decision::{invalidates, writes_back};
use records::either;
use sizes::{MAX_CELLS, MAX_PLACES};

// Stays: three arrays for the copies and their flags, and not one of `BlockCopy`, since each rule and theorem of a service
// speaks of its lists of copies, held flags and dirty flags.
#[derive(Clone, Copy)]
pub struct Stores {
    pub blocks: [u64; MAX_PLACES],
    pub copies: [u64; MAX_CELLS],
    pub held: [bool; MAX_CELLS],
    pub dirty: [bool; MAX_CELLS],
}

impl Stores {
    // Drops the copies of the file whose first block stands at base, with their flags, unless they are kept.
    pub fn drop_copies_unless(&mut self, keep: bool, count: usize, base: usize)
        requires count_le_max_blocks { count ≤ max_blocks }
        requires max_blocks_bound { base + max_blocks ≤ max_cells }
        ensures blocks_after { self.new.blocks ≡ self.old.blocks }
        ensures copies_after { self.new.copies ≡ kept count keep 0 base self.old.copies }
        ensures held_after { self.new.held ≡ kept count keep false base self.old.held }
        ensures dirty_after { self.new.dirty ≡ kept count keep false base self.old.dirty }
    {
        self.drop_held_unless(keep, count, base);
        self.clean_unless(keep, count, base);
    }

    // Does to the blocks of the file what answering a callback of the kind asks, and tells how many it sent to the server.
    // Stays: the kind is a number, as in crates/decision/src/kind.rt.
    pub fn answer_blocks(&mut self, kind: u8, count: usize, base: usize, to: usize) -> usize
        requires count_le_max_blocks { count ≤ max_blocks }
        requires max_blocks_bound { base + max_blocks ≤ max_cells }
        requires max_blocks_bound_2 { to + max_blocks ≤ max_places }
        ensures value { result ≡ cond (writes_back kind) (tally count (λ b. get_or self.old.dirty (base + b) false)) 0 }
        ensures blocks_after { self.new.blocks
            ≡ sent count (writes_back kind) self.old.dirty self.old.copies base to self.old.blocks }
        ensures copies_after { self.new.copies ≡ kept count (not (drops kind)) 0 base self.old.copies }
        ensures held_after { self.new.held ≡ kept count (not (drops kind)) false base self.old.held }
        ensures dirty_after { self.new.dirty ≡ kept count false false base self.old.dirty }
    {
        let sends = writes_back(kind);
        let sent = self.count_if(sends, count, base);
        self.send_if(sends, count, base, to);
        self.drop_held_unless(!invalidates(kind), count, base);
        self.clean_unless(false, count, base);
        sent
    }

    // How many of the blocks are dirty; none where they are not asked for.
    fn count_if(&self, asked: bool, count: usize, base: usize) -> usize
        requires count_le_max_blocks { count ≤ max_blocks }
        requires max_blocks_bound { base + max_blocks ≤ max_cells }
        ensures { result ≡ cond asked (tally count (λ b. get_or self.now.dirty (base + b) false)) 0 }
    {
        if !asked {
            return 0;
        }
        count_dirty(count, base, &self.dirty)
    }

    // Drops the copies, unless they are kept.
    fn drop_held_unless(&mut self, keep: bool, count: usize, base: usize)
        requires count_le_max_blocks { count ≤ max_blocks }
        requires max_blocks_bound { base + max_blocks ≤ max_cells }
        ensures blocks_after { self.new.blocks ≡ self.old.blocks }
        ensures copies_after { self.new.copies ≡ kept count keep 0 base self.old.copies }
        ensures held_after { self.new.held ≡ kept count keep false base self.old.held }
        ensures dirty_after { self.new.dirty ≡ self.old.dirty }
    {
        if keep {
            return;
        }
        for b in 0..count {
            self.copies[base + b] = 0;
            self.held[base + b] = false;
        }
    }

    // Takes the dirty flags of the file away, unless they are kept.
    fn clean_unless(&mut self, keep: bool, count: usize, base: usize)
        requires count_le_max_blocks { count ≤ max_blocks }
        requires max_blocks_bound { base + max_blocks ≤ max_cells }
        ensures blocks_after { self.new.blocks ≡ self.old.blocks }
        ensures copies_after { self.new.copies ≡ self.old.copies }
        ensures held_after { self.new.held ≡ self.old.held }
        ensures dirty_after { self.new.dirty ≡ kept count keep false base self.old.dirty }
    {
        if keep {
            return;
        }
        for b in 0..count {
            self.dirty[base + b] = false;
        }
    }

    // Sends the dirty blocks of the file to the server, whose first block of it stands at to.
    fn send_if(&mut self, send: bool, count: usize, base: usize, to: usize)
        requires count_le_max_blocks { count ≤ max_blocks }
        requires max_blocks_bound { base + max_blocks ≤ max_cells }
        requires max_blocks_bound_2 { to + max_blocks ≤ max_places }
        ensures blocks_after { self.new.blocks
            ≡ sent count send self.old.dirty self.old.copies base to self.old.blocks }
        ensures copies_after { self.new.copies ≡ self.old.copies }
        ensures held_after { self.new.held ≡ self.old.held }
        ensures dirty_after { self.new.dirty ≡ self.old.dirty }
    {
        if !send {
            return;
        }
        for b in 0..count {
            let mine = self.copies[base + b];
            let theirs = self.blocks[to + b];
            self.blocks[to + b] = either(self.dirty[base + b], mine, theirs);
        }
    }
}
