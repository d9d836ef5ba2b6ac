// The words of the lent table: a word for each record, each side, and the head and the calls of each file.
ghost use Rattle.std.specs.Prelude.{◌≡◌, cond, ◌<◌, ◌≤◌};
ghost use Rattle.sizes.specs.Sizes.{max_clients};
ghost use Rattle.decision.specs.Lists.{filled};
ghost use Rattle.words.specs.Words.{record_held, side_held, version_held, last_held, waiter_held, mode_held};
ghost use Rattle.words.specs.Words.{calls_held, Head};

use protocol::ClientFile;
use records::{ClientRecord, Mode, Version};
use sizes::MAX_CLIENTS;

pub fn record_of(word: u64) -> ClientRecord
    ensures { result ≡ record_held word }
{
    ClientRecord {
        readers: (word % 256) as u8,
        writers: (word / 256 % 256) as u8,
        caching: word / 65536 % 256 == 1,
    }
}

pub fn record_word(known: ClientRecord) -> u64
    ensures { (record_held result ≡ known) × (result < 16777216) }
{
    u64::from(known.readers) + 256 * u64::from(known.writers) + 65536 * u64::from(known.caching)
}

pub fn side_of(word: u64) -> ClientFile
    ensures { result ≡ side_held word }
{
    ClientFile {
        opens: record_of(word),
        marked: word / 16777216 % 256 == 1,
        label: Version::numbered((word / 4294967296) as u32),
    }
}

pub fn side_word(side: ClientFile) -> u64
    ensures { side_held result ≡ side }
{
    record_word(side.opens)
        + 16777216 * u64::from(side.marked)
        + 4294967296 * u64::from(side.label.number())
}

pub fn version_of(head: u64) -> Version
    ensures { result ≡ version_held head }
{
    Version::numbered((head % 4294967296) as u32)
}

pub fn last_of(head: u64) -> u8
    ensures { result ≡ last_held head }
{
    (head / 4294967296 % 256) as u8
}

pub fn waiter_of(head: u64) -> u8
    ensures { result ≡ waiter_held head }
{
    (head / 1099511627776 % 256) as u8
}

pub fn mode_of(head: u64) -> Mode
    ensures { result ≡ mode_held head }
{
    if head / 281474976710656 == 0 {
        Mode::Read
    } else {
        Mode::Write
    }
}

pub fn head_word(version: Version, last: u8, waiter: u8, mode: Mode) -> u64
    ensures { Head result version last waiter mode }
{
    u64::from(version.number())
        + 4294967296
            * (u64::from(last) + 256 * (u64::from(waiter) + 256 * u64::from(mode.is_write())))
}

pub fn with_last(head: u64, last: u8) -> u64
    ensures { Head result (version_held head) last (waiter_held head) (mode_held head) }
{
    head % 4294967296 + head / 1099511627776 * 1099511627776 + u64::from(last) * 4294967296
}

pub fn calls_of(word: u64) -> [u8; MAX_CLIENTS]
    ensures { result ≡ calls_held word }
{
    word.to_le_bytes()
}

pub fn calls_word(calls: [u8; MAX_CLIENTS]) -> u64
    ensures { calls_held result ≡ calls }
{
    u64::from_le_bytes(calls)
}

// The word of the calls without those to the clients.
pub fn calls_past(word: u64, clients: usize) -> u64
    requires { clients ≤ max_clients }
    ensures { calls_held result ≡ filled clients 0 (calls_held word) }
{
    if clients == MAX_CLIENTS {
        return 0;
    }
    let mut calls = calls_of(word);
    calls[..clients].fill(0);
    calls_word(calls)
}
