// The whole service, and the fresh one.
ghost use Rattle.std.specs.Prelude.{◌≡◌};
ghost use Rattle.service.specs.Aside.{SetsAside};
ghost use Rattle.service.specs.Reports.{ReportsPass};
ghost use Rattle.service.specs.Demand3.{Consistent};
ghost use Rattle.service.specs.Fresh.{fresh};
ghost use Rattle.service.specs.NothingBehind.{LeavesNothing};
ghost use Rattle.service.specs.Plain.{PlainlyConsistent};
ghost use Rattle.service.specs.Store.{StoreHolds};

use protocol::{ClientFile, Entry, Sides};
use sizes::{MAX_CELLS, MAX_CLIENTS, MAX_FILES, MAX_PLACES, Sizes};
use table::Table;

// The server: what a crash takes, and what survives it.
#[derive(Clone, Copy)]
pub struct Server {
    pub table: Table,
    // Block b of file f stands at f * MAX_BLOCKS + b, here and among the flags.
    pub blocks: [u64; MAX_PLACES],
    // Whether a write has reached the block.
    pub used: [bool; MAX_PLACES],
    // How many places of the store are free; one above its size reads as the size.
    pub free: usize,
}

#[derive(Clone, Copy)]
pub struct Service {
    // As given; a size out of its range counts as not given.
    pub sizes: Sizes,
    pub server: Server,
    // The clients' sides of each file.
    pub clients: [Sides; MAX_FILES],
    // Client i's copy of block b of file f stands at (f * MAX_CLIENTS + i) * MAX_BLOCKS + b, here and in the flags.
    pub copies: [u64; MAX_CELLS],
    pub held: [bool; MAX_CELLS],
    pub dirty: [bool; MAX_CELLS],
}

impl Service {
    // The fresh service of these sizes. From it every list of steps is consistent, which is Demand 3, plainly so where no
    // client restarts or is put under embargo; it leaves nothing behind, sets aside whoever is under embargo, and accounts for
    // every place of the store.
    pub fn new(sizes: Sizes) -> Self
        ensures value { result ≡ fresh sizes }
        ensures consistent { Consistent result }
        ensures plainly_consistent { PlainlyConsistent result }
        ensures leaves_nothing { LeavesNothing result }
        ensures sets_aside { SetsAside result }
        ensures reports_pass { ReportsPass result }
        ensures store_holds { StoreHolds result }
    {
        let none = ClientFile::none();
        let sides = Sides {
            of: [none; MAX_CLIENTS],
        };
        let entry = Entry::fresh();
        let table = Table {
            files: [entry; MAX_FILES],
            recovering: false,
            reported: [false; MAX_CLIENTS],
            embargoed: [false; MAX_CLIENTS],
        };
        let server = Server {
            table,
            blocks: [0; MAX_PLACES],
            used: [false; MAX_PLACES],
            free: MAX_PLACES,
        };
        Service {
            sizes,
            server,
            clients: [sides; MAX_FILES],
            copies: [0; MAX_CELLS],
            held: [false; MAX_CELLS],
            dirty: [false; MAX_CELLS],
        }
    }
}
