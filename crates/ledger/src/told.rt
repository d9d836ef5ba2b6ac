// What is told of a read: which copy it takes, and which line wrote it.
ghost use Rattle.std.specs.Prelude.{◌≡◌, ◌%◌};
ghost use Rattle.sizes.specs.Sizes.{max_clients, max_files, max_blocks};
ghost use Rattle.ledger.specs.Ledger.{told_of};

use crate::ledger::Ledger;
use blocks::{Stores, cell_of, place_of};

#[derive(Clone, Copy)]
pub struct Told {
    // From the client's own copy; else from the server.
    pub own: bool,
    // The copy is dirty.
    pub dirty: bool,
    // The line at which the copy was fetched, or written there.
    pub since: u64,
    // The line of the latest write that is not lost, 0 if there is none, and its client.
    pub line: u64,
    pub client: u8,
    // The line of the latest write, if that is lost, else 0, and its client.
    pub lost: u64,
    pub loser: u8,
}

impl Ledger {
    // What is told of a read by a client that may cache or not, before the read. The numbers are wrapped.
    pub fn read_told(
        &self,
        caching: bool,
        client: usize,
        file: usize,
        block: usize,
        stores: &Stores,
    ) -> Told
        ensures { result ≡ told_of caching stores.now self.now
            (client % max_clients) (file % max_files) (block % max_blocks) }
    {
        let cell = cell_of(client, file, block);
        let lines = self.lines_in(place_of(file, block));
        Told {
            own: caching & stores.held[cell],
            dirty: stores.dirty[cell],
            since: self.copied[cell],
            line: lines.latest(),
            client: lines.writer(),
            lost: lines.lost,
            loser: lines.loser,
        }
    }
}
