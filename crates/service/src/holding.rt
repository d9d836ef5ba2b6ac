// A service held as words, flags, blocks and copies, and read back out of them.
ghost use Rattle.std.specs.Prelude.{◌≡◌, false, length, replicate, set, take};
ghost use Rattle.sizes.specs.Sizes.{max_files, max_places, max_cells};
ghost use Rattle.words.specs.Rows.{listed, table_rows, table_words, entry_held, sides_held};
ghost use Rattle.service.specs.Fresh.{fresh};
ghost use Rattle.service.specs.Lent.{state_flags, lent_flags, used_held, table_held, service_held};

use crate::flags::{FLAGS, USED, put_recovery, recovery_of};
use crate::held_service::HeldService;
use crate::service::{Server, Service};
use blocks::Stores;
use protocol::{ClientFile, Entry, SharedFile, Sides};
use sizes::{MAX_CELLS, MAX_CLIENTS, MAX_FILES, MAX_PLACES, Sizes};
use table::{Recovery, Table};
use words::{ROWS, WORDS, entry_at, put_file, sides_at};

// Every row.
fn hold_files(files: [Entry; MAX_FILES], clients: [Sides; MAX_FILES], table: &mut [u64; WORDS])
    requires { length table.old ≡ table_words }
    ensures { (listed max_files (λ f. entry_held table.new f) ≡ files)
        × (listed max_files (λ f. sides_held table.new f) ≡ clients)
        × (length table.new ≡ table_words) }
{
    for f in 0..MAX_FILES {
        let entry = files[f];
        let sides = clients[f];
        let shared = SharedFile { entry, sides };
        put_file(table, f, shared);
    }
}

// The used blocks and the number of free places. What else the table and the flags hold stays.
fn hold_space(
    used: [bool; MAX_PLACES],
    free: usize,
    table: &mut [u64; WORDS],
    flags: &mut [bool; FLAGS],
)
    requires table_len { length table.old ≡ table_words }
    requires flags_len { length flags.old ≡ lent_flags }
    ensures flags_after { (used_held flags.new ≡ used)
        × (take state_flags flags.new ≡ take state_flags flags.old)
        × (length flags.new ≡ lent_flags) }
    ensures table_after { table.new ≡ set table.old table_rows free }
{
    table[ROWS] = free as u64;
    flags[USED..].copy_from_slice(&used);
}

impl HeldService {
    // The service, held in place of the one before.
    pub fn hold(&mut self, service: &Service)
        ensures { service_held service.now.sizes self.new.table self.new.flags self.new.stores ≡ service.now }
    {
        let server = &service.server;
        let state = &server.table;
        hold_files(state.files, service.clients, &mut self.table);
        put_recovery(
            &mut self.flags,
            Recovery {
                recovering: state.recovering,
                reported: state.reported,
                embargoed: state.embargoed,
            },
        );
        hold_space(server.used, server.free, &mut self.table, &mut self.flags);
        self.stores.blocks = server.blocks;
        self.stores.copies = service.copies;
        self.stores.held = service.held;
        self.stores.dirty = service.dirty;
    }

    // The service, held. Put into its callers, since the compiler copies the whole of what it answers otherwise.
    #[inline(always)]
    pub fn holding(service: &Service) -> Self
        ensures { service_held service.now.sizes result.table result.flags result.stores ≡ service.now }
    {
        let mut held = HeldService::zeros();
        held.hold(service);
        held
    }

    // Zeros, for a service to be held in.
    #[inline(always)]
    pub fn zeros() -> Self
        ensures table_value { result.table ≡ replicate table_words 0 }
        ensures flags_value { result.flags ≡ replicate lent_flags false }
        ensures blocks_value { result.stores.blocks ≡ replicate max_places 0 }
        ensures copies_value { result.stores.copies ≡ replicate max_cells 0 }
        ensures held_value { result.stores.held ≡ replicate max_cells false }
        ensures dirty_value { result.stores.dirty ≡ replicate max_cells false }
    {
        HeldService {
            table: [0; WORDS],
            flags: [false; FLAGS],
            stores: Stores {
                blocks: [0; MAX_PLACES],
                copies: [0; MAX_CELLS],
                held: [false; MAX_CELLS],
                dirty: [false; MAX_CELLS],
            },
        }
    }

    // The fresh service, of any sizes.
    pub fn fresh() -> Self
        ensures { (z : Sizes) → service_held z result.table result.flags result.stores ≡ fresh z }
    {
        let service = Service::new(Sizes::default());
        HeldService::holding(&service)
    }

    // The state table alone.
    pub fn to_table(&self) -> Table
        ensures { result ≡ table_held self.now.table self.now.flags }
    {
        let files = held_files(&self.table);
        let recovery = recovery_of(&self.flags);
        let reported = recovery.reported;
        let embargoed = recovery.embargoed;
        Table {
            files,
            recovering: recovery.recovering,
            reported,
            embargoed,
        }
    }

    // The service that is held, of these sizes.
    pub fn to_service(&self, sizes: Sizes) -> Service
        ensures { result ≡ service_held sizes self.now.table self.now.flags self.now.stores }
    {
        let table = self.to_table();
        let used = held_used(&self.flags);
        let blocks = self.stores.blocks;
        let clients = held_sides(&self.table);
        let copies = self.stores.copies;
        let held = self.stores.held;
        let dirty = self.stores.dirty;
        let server = Server {
            table,
            blocks,
            used,
            free: self.table[ROWS] as usize,
        };
        Service {
            sizes,
            server,
            clients,
            copies,
            held,
            dirty,
        }
    }
}

fn held_files(table: &[u64; WORDS]) -> [Entry; MAX_FILES]
    ensures { result ≡ listed max_files (λ f. entry_held table.now f) }
{
    let fresh = Entry::fresh();
    let mut files = [fresh; MAX_FILES];
    for f in 0..MAX_FILES {
        let entry = entry_at(table, f);
        files[f] = entry;
    }
    files
}

fn held_sides(table: &[u64; WORDS]) -> [Sides; MAX_FILES]
    ensures { result ≡ listed max_files (λ f. sides_held table.now f) }
{
    let none = ClientFile::none();
    let first = Sides {
        of: [none; MAX_CLIENTS],
    };
    let mut clients = [first; MAX_FILES];
    for f in 0..MAX_FILES {
        let sides = sides_at(table, f);
        clients[f] = sides;
    }
    clients
}

// Which blocks are used.
pub fn held_used(flags: &[bool; FLAGS]) -> [bool; MAX_PLACES]
    requires { length flags.now ≡ lent_flags }
    ensures { result ≡ used_held flags.now }
{
    let mut used = [false; MAX_PLACES];
    used.copy_from_slice(&flags[USED..]);
    used
}
