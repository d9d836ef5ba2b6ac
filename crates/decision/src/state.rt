// The state of a file, named from the records of its clients.
ghost use Rattle.std.specs.Prelude.{◌≡◌, cond, ◌≤◌, set};
ghost use Rattle.sizes.specs.Sizes.{max_clients};
ghost use Rattle.decision.specs.State.{code_of, record_in, has, tallies_of, state_of};

use records::ClientRecord;
use sizes::MAX_CLIENTS;

// The states of the 1989 paper's section 4.3.4.
#[derive(Clone, Copy)]
pub enum FileState {
    Closed,
    ClosedDirty,
    OneReader,
    OneReaderDirty,
    MultReaders,
    OneWriter,
    WriteShared,
}

// What a client is counted for.
#[derive(Clone, Copy)]
pub enum Property {
    Open,
    // Open, and may not cache.
    Uncached,
    // Open with writers.
    Writing,
}

impl FileState {
    // The state code that the summary prints. Stays: by `match`, the form that document 01 asks of state codes and of the
    // kinds of kind.rt (docs/DECISIONS.md, Forms).
    pub fn code(self) -> u8
        ensures { result ≡ code_of self }
    {
        match self {
            FileState::Closed => 0,
            FileState::ClosedDirty => 1,
            FileState::OneReader => 2,
            FileState::OneReaderDirty => 3,
            FileState::MultReaders => 4,
            FileState::OneWriter => 5,
            FileState::WriteShared => 6,
        }
    }
}

pub fn has(counted: ClientRecord, property: Property) -> bool
    ensures { result ≡ has property counted }
{
    match property {
        Property::Open => counted.is_open(),
        Property::Uncached => counted.is_open() & !counted.caching,
        Property::Writing => 0 < counted.writers,
    }
}

// The record of a client; of a client that is not there, one that is not open.
pub fn record_of(records: [ClientRecord; MAX_CLIENTS], client: usize) -> ClientRecord
    ensures { result ≡ record_in records client }
{
    if client < MAX_CLIENTS {
        records[client]
    } else {
        ClientRecord::not_open()
    }
}

// The records with this one for the client; a client that is not there changes none.
pub fn with_record(
    mut records: [ClientRecord; MAX_CLIENTS],
    client: usize,
    own: ClientRecord,
) -> [ClientRecord; MAX_CLIENTS]
    ensures { result ≡ set records client own }
{
    if client < MAX_CLIENTS {
        records[client] = own;
    }
    records
}

pub fn one_if(holds: bool) -> usize
    ensures { result ≡ cond holds 1 0 }
{
    usize::from(holds)
}

// How many clients are open, open without permission to cache, and open with writers.
#[derive(Clone, Copy)]
pub struct Tallies {
    pub open: usize,
    pub uncached: usize,
    pub writing: usize,
}

// The tallies of the clients. The usual number of them is told apart, so that the compiler unrolls its loop.
pub fn tallies_of(records: [ClientRecord; MAX_CLIENTS], clients: usize) -> Tallies
    requires { clients ≤ max_clients }
    ensures { result ≡ tallies_of clients (record_in records) }
{
    if clients == MAX_CLIENTS {
        return tallies_up_to(records, MAX_CLIENTS);
    }
    tallies_up_to(records, clients)
}

fn tallies_up_to(records: [ClientRecord; MAX_CLIENTS], clients: usize) -> Tallies
    requires { clients ≤ max_clients }
    ensures { result ≡ tallies_of clients (record_in records) }
{
    let mut open: usize = 0;
    let mut uncached: usize = 0;
    let mut writing: usize = 0;
    for i in 0..clients {
        open += one_if(has(records[i], Property::Open));
        uncached += one_if(has(records[i], Property::Uncached));
        writing += one_if(has(records[i], Property::Writing));
    }
    Tallies {
        open,
        uncached,
        writing,
    }
}

pub fn state_of(records: [ClientRecord; MAX_CLIENTS], clients: usize, last: u8) -> FileState
    requires { clients ≤ max_clients }
    ensures { result ≡ state_of clients (record_in records) last }
{
    let counted = tallies_of(records, clients);
    let among = (last as usize) < clients;
    let open = counted.open;
    match open {
        0 if among => FileState::ClosedDirty,
        0 => FileState::Closed,
        _ if 0 < counted.uncached => FileState::WriteShared,
        1 if 0 < counted.writing => FileState::OneWriter,
        1 if among & record_of(records, last as usize).is_open() => FileState::OneReaderDirty,
        1 => FileState::OneReader,
        _ => FileState::MultReaders,
    }
}
