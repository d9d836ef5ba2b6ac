// The callbacks that an open causes, from the state of the file.
ghost use Rattle.std.specs.Prelude.{◌≡◌, Bool, true, false, ◌≤◌, replicate};
ghost use Rattle.records.specs.Record.{not_open};
ghost use Rattle.sizes.specs.Sizes.{max_clients};
ghost use Rattle.decision.specs.State.{record_in};
ghost use Rattle.decision.specs.Callback.{callback_kind, callbacks_due};

use crate::state::{FileState, record_of, state_of};
use records::{ClientRecord, Mode, either};
use sizes::MAX_CLIENTS;

// What a client other than the opener is called for: 1 write back, 2 invalidate, 3 both, 0 nothing.
// Stays: a number, as in kind.rt: it becomes a byte of the entry's calls.
pub fn callback_kind(state: FileState, mode: Mode, called: ClientRecord, is_last: bool) -> u8
    ensures { result ≡ callback_kind state mode called is_last }
{
    match state {
        FileState::Closed => 0,
        FileState::ClosedDirty | FileState::OneReaderDirty => to_last_writer(mode, is_last),
        FileState::OneReader | FileState::MultReaders => to_reader(mode, called),
        FileState::OneWriter => either(called.is_open(), 3, 0),
        FileState::WriteShared => either(called.is_open() & called.caching, 2, 0),
    }
}

fn to_last_writer(mode: Mode, is_last: bool) -> u8
    ensures { result ≡ callback_kind FileState.ClosedDirty mode not_open is_last }
{
    match mode {
        Mode::Read => either(is_last, 1, 0),
        Mode::Write => either(is_last, 3, 0),
    }
}

fn to_reader(mode: Mode, called: ClientRecord) -> u8
    ensures { result ≡ callback_kind FileState.OneReader mode called false }
{
    match mode {
        Mode::Read => 0,
        Mode::Write => either(called.is_open(), 2, 0),
    }
}

// The callbacks that the open causes: a kind for each client, 0 for none.
pub fn callbacks_due(
    records: [ClientRecord; MAX_CLIENTS],
    clients: usize,
    last: u8,
    opener: usize,
    mode: Mode,
) -> [u8; MAX_CLIENTS]
    requires { clients ≤ max_clients }
    ensures { result ≡ callbacks_due clients (record_in records) last opener mode (replicate max_clients 0) }
{
    let mut calls = [0u8; MAX_CLIENTS];
    if record_of(records, opener).keeps_permission(mode) {
        return calls;
    }
    let state = state_of(records, clients, last);
    if calls_nobody(state, mode) {
        return calls;
    }
    for i in 0..clients {
        let kind = callback_kind(state, mode, records[i], i == last as usize);
        calls[i] = either(i != opener, kind, 0);
    }
    calls
}

// Whether an open in the mode calls nobody in the state, whoever is there. It may call nobody otherwise too.
fn calls_nobody(state: FileState, mode: Mode) -> bool
    ensures { result ≡ true → (called : ClientRecord) (last : Bool) → callback_kind state mode called last ≡ 0 }
{
    match state {
        FileState::Closed => true,
        FileState::OneReader | FileState::MultReaders => !mode.is_write(),
        _ => false,
    }
}
