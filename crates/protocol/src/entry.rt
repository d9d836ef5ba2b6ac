// An entry of the server's state table: what the server holds of one file besides its blocks, and what the steps make
// of it. The number of clients in force goes with each method; what an array holds past it stays.
ghost use Rattle.std.specs.Prelude.{◌≡◌, ◌≤◌, ◌<◌, get_or, replicate};
ghost use Rattle.sizes.specs.Sizes.{max_clients};
ghost use Rattle.decision.specs.Lists.{stored};
ghost use Rattle.protocol.specs.Entry.{waits as has_waiter, call_to, calls_out, calls_in, calls_due, waiting_entry};
ghost use Rattle.protocol.specs.Entry.{kind_of, grant_of, answered_entry, fresh_entry};

use crate::reply::Grant;
use decision::{
    asks_nothing, callbacks_due, invalidates, permission_at_grant, with_record, writes_back,
};
use records::{ClientRecord, Mode, Version, either};
use sizes::MAX_CLIENTS;

// In a client field: none.
pub const NOBODY: u8 = 255;

#[derive(Clone, Copy)]
pub struct Entry {
    pub records: [ClientRecord; MAX_CLIENTS],
    pub version: Version,
    // The last writer; a number that is no client is none.
    // Stays: no Option, here and in the waiter, for an entry holds any byte, and `waits` and `state_of` promise what each means.
    pub last: u8,
    // The client whose open waits; a number that is no client is none.
    pub waiter: u8,
    // The mode of the waiting open.
    pub mode: Mode,
    // The kind of the callback that each client has still to answer: 1 write back, 2 invalidate, 3 both; else none.
    pub calls: [u8; MAX_CLIENTS],
}

impl Entry {
    // The entry at the start.
    pub fn fresh() -> Self
        ensures { result ≡ fresh_entry max_clients }
    {
        let closed = ClientRecord::not_open();
        Entry {
            records: [closed; MAX_CLIENTS],
            version: Version::first(),
            last: NOBODY,
            waiter: NOBODY,
            mode: Mode::Read,
            calls: [0; MAX_CLIENTS],
        }
    }

    // Whether an open of the file waits.
    pub fn waits(self, clients: usize) -> bool
        ensures { result ≡ has_waiter clients self }
    {
        (self.waiter as usize) < clients
    }

    // The kind of the callback that the client has still to answer, 0 for none.
    // Stays: a number, as writes_back, invalidates and asks_nothing of crate decision take each (their clauses).
    pub fn call_to(self, clients: usize, client: usize) -> u8
        ensures { result ≡ call_to clients self client }
    {
        if !self.waits(clients) | (MAX_CLIENTS <= client) {
            return 0;
        }
        kind_of(self.calls[client])
    }

    // How many clients have still to answer.
    pub fn calls_out(self, clients: usize) -> usize
        requires { clients ≤ max_clients }
        ensures { result ≡ calls_out clients self }
    {
        if !self.waits(clients) {
            return 0;
        }
        self.calls[..clients]
            .iter()
            .filter(|&&number| !asks_nothing(kind_of(number)))
            .count()
    }

    // The callbacks that an open causes: a kind for each client, 0 for none.
    pub fn calls_due(self, clients: usize, opener: usize, mode: Mode) -> [u8; MAX_CLIENTS]
        requires { clients ≤ max_clients }
        ensures { result ≡ calls_due clients self opener mode (replicate max_clients 0) }
    {
        callbacks_due(self.records, clients, self.last, opener, mode)
    }

    // The open waits for the callbacks that it causes.
    pub fn waiting(
        mut self,
        clients: usize,
        opener: usize,
        mode: Mode,
        calls: [u8; MAX_CLIENTS],
    ) -> Self
        requires clients_le_max_clients { clients ≤ max_clients }
        requires opener_lt_clients { opener < clients }
        requires calls_value { calls ≡ calls_due clients self opener mode (replicate max_clients 0) }
        ensures { result ≡ waiting_entry clients self opener mode }
    {
        let out = with_calls(self.calls, clients, calls);
        self.waiter = opener as u8;
        self.mode = mode;
        self.calls = out;
        self
    }

    // What a grant of the open tells.
    pub fn grant(self, clients: usize, opener: usize, mode: Mode) -> Grant
        requires { clients ≤ max_clients }
        ensures { result ≡ grant_of clients self opener mode }
    {
        let latest = self.version.latest_at(mode);
        Grant {
            latest,
            previous: latest.previous(),
            caching: permission_at_grant(self.records, clients, opener, mode),
        }
    }

    // The client has answered its callback of this kind.
    pub fn answered(mut self, client: usize, kind: u8) -> Self
        requires { client < max_clients }
        ensures { result ≡ answered_entry self client kind }
    {
        let own = self.records[client];
        let after = either(invalidates(kind), own.uncached(), own);
        // Stays: the records go by value and come back with one changed, as document 01 asks (docs/DECISIONS.md, Forms).
        let records = with_record(self.records, client, after);
        self.records = records;
        self.calls[client] = 0;
        if writes_back(kind) {
            self.last = NOBODY;
        }
        self
    }
}

// The kind of callback that a number of an entry is, 0 for none.
fn kind_of(number: u8) -> u8
    ensures { result ≡ kind_of number }
{
    match number {
        1..=3 => number,
        _ => 0,
    }
}

// How many of the clients the callbacks call.
pub fn count_calls(calls: [u8; MAX_CLIENTS], clients: usize) -> usize
    requires { clients ≤ max_clients }
    ensures { result ≡ calls_in clients calls }
{
    calls[..clients]
        .iter()
        .filter(|&&kind| !asks_nothing(kind))
        .count()
}

// The callbacks that were out, with these in place of the clients'. Where all the places are the clients', they are these.
fn with_calls(
    mut out: [u8; MAX_CLIENTS],
    clients: usize,
    calls: [u8; MAX_CLIENTS],
) -> [u8; MAX_CLIENTS]
    requires { clients ≤ max_clients }
    ensures { result ≡ stored clients (λ i. i) (λ i. get_or calls i 0) out }
{
    if clients == MAX_CLIENTS {
        return calls;
    }
    out[..clients].copy_from_slice(&calls[..clients]);
    out
}
