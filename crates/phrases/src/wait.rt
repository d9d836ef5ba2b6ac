// What is said of an open that waits.
ghost use Rattle.std.specs.Prelude.{◌+◌, ◌≤◌, length};
ghost use Rattle.sizes.specs.Sizes.{max_clients};
ghost use Rattle.decision.specs.Callback.{call_if, ordered_calls};
ghost use Rattle.writer.specs.Buffer.{Wrote};
ghost use Rattle.phrases.specs.Phrase.{state_text};
ghost use Rattle.phrases.specs.Accepted.{kind_text, calls_text, state_in_text, wait_text};

use crate::pending::put_opener;
use crate::phrase::{put_client, put_either};
use decision::{FileState, invalidates, state_of, writes_back};
use protocol::Entry;
use records::Mode;
use sizes::MAX_CLIENTS;
use writer::put_text;

pub fn put_state(out: &mut [u8], at: usize, state: FileState) -> usize
    requires { at + 12 ≤ length out.old }
    ensures wrote { Wrote out.old at (state_text state) out.new result }
    ensures upper_bound { result ≤ at + 12 }
{
    match state {
        FileState::Closed => put_text(out, at, b"CLOSED"),
        FileState::ClosedDirty => put_text(out, at, b"CLOSED_DIRTY"),
        FileState::OneReader => put_text(out, at, b"ONE_READER"),
        FileState::OneReaderDirty => put_text(out, at, b"ONE_RDRDIRTY"),
        FileState::MultReaders => put_text(out, at, b"MULT_READERS"),
        FileState::OneWriter => put_text(out, at, b"ONE_WRITER"),
        FileState::WriteShared => put_text(out, at, b"WRITE_SHARED"),
    }
}

// What a callback of the kind asks for.
// Stays: the kind is a number here and below, as in crates/decision/src/kind.rt.
fn put_kind(out: &mut [u8], at: usize, kind: u8) -> usize
    requires { at + 28 ≤ length out.old }
    ensures wrote { Wrote out.old at (kind_text kind) out.new result }
    ensures upper_bound { result ≤ at + 28 }
{
    if writes_back(kind) {
        return put_either(
            out,
            at,
            invalidates(kind),
            b"write back and drop its copy",
            b"write back",
        );
    }
    put_text(out, at, b"drop its copy")
}

// A callback, if the kind is one.
fn put_call(out: &mut [u8], at: usize, client: usize, kind: u8) -> usize
    requires { at + 72 ≤ length out.old }
    ensures wrote { Wrote out.old at (calls_text (call_if client kind)) out.new result }
    ensures upper_bound { result ≤ at + 72 }
{
    if kind == 0 {
        return at;
    }
    let name = put_text(out, at, b"; ");
    let word = put_client(out, name, client);
    let what = put_text(out, word, b" is called to ");
    put_kind(out, what, kind)
}

// The callbacks, in the order in which they go out.
fn put_calls(out: &mut [u8], at: usize, calls: [u8; MAX_CLIENTS]) -> usize
    requires { at + 576 ≤ length out.old }
    ensures wrote { Wrote out.old at (calls_text (ordered_calls max_clients calls)) out.new result }
    ensures upper_bound { result ≤ at + 576 }
{
    let mut next = at;
    for client in 0..MAX_CLIENTS {
        next = put_call(out, next, client, calls[client]);
    }
    next
}

// Who waits, for which file, in which state, and who is called.
pub fn put_wait(
    out: &mut [u8],
    at: usize,
    clients: usize,
    entry: Entry,
    mode: Mode,
    client: usize,
    file: usize,
    calls: [u8; MAX_CLIENTS],
) -> usize
    requires clients_le_max_clients { clients ≤ max_clients }
    requires at_in_bounds { at + 677 ≤ length out.old }
    ensures wrote { Wrote out.old at (wait_text clients entry mode client file calls) out.new result }
    ensures upper_bound { result ≤ at + 677 }
{
    let state = put_opener(out, at, mode, client, file);
    let called = put_reason(out, state, clients, entry);
    put_calls(out, called, calls)
}

// The state of the file, which is why they are called.
fn put_reason(out: &mut [u8], at: usize, clients: usize, entry: Entry) -> usize
    requires clients_le_max_clients { clients ≤ max_clients }
    requires at_in_bounds { at + 23 ≤ length out.old }
    ensures wrote { Wrote out.old at (state_in_text clients entry) out.new result }
    ensures upper_bound { result ≤ at + 23 }
{
    let name = put_text(out, at, b", which is ");
    put_state(out, name, state_of(entry.records, clients, entry.last))
}
