// The records of a line, from its step, what the station could do itself just before, and what the step said.
ghost use Rattle.std.specs.Prelude.{ℕ, ◌+◌, ◌%◌, ◌≤◌, ◌<◌, ◌≡◌, cond, List, length, get_or, take};
ghost use Rattle.sizes.specs.Sizes.{max_clients, max_files, max_blocks};
ghost use Rattle.protocol.specs.Reply.{brought, no_granting};
ghost use Rattle.words.specs.Words.{side_held};
ghost use Rattle.words.specs.Rows.{table_words, word_at};
ghost use Rattle.words.specs.Said.{said_room, calls?, letter_said, grants_from, reply_said, calls_said, grants_said};
ghost use Rattle.trace.specs.Records.{noted, names_station, kind_of, outcome_of, sent_by, open_records, open_record};
ghost use Rattle.trace.specs.Records.{is_servers, sends_one, records_given, sent_given, itself_found, trace_room};

use crate::record::{TraceKind, TraceOutcome, TraceRecord};
use blocks::cell_of;
use decision::one_if;
use protocol::{ClientFile, NOBODY, Step, asked};
use sizes::{MAX_BLOCKS, MAX_CELLS, MAX_CLIENTS, MAX_FILES};
use words::{ROW, SAID, WORDS, calls_with, letter_of, side_of};

// The most records of a line: its own, one for each block, each station that is called, the open that an answer grants,
// and one for each file.
pub const TRACE: usize = 2 + MAX_BLOCKS + MAX_CLIENTS + MAX_FILES;

// So many records, in the first places.
#[derive(Clone, Copy)]
pub struct Trace {
    pub records: [TraceRecord; TRACE],
    pub count: usize,
}

// Whether the station needs no server for the step: a read or a write. The numbers are wrapped.
pub fn serves_itself(step: Option<Step>, table: &[u64; WORDS], held: &[bool; MAX_CELLS]) -> bool
    requires { length table.now ≡ table_words }
    ensures { result ≡ itself_found step table.now held.now }
{
    match step {
        Some(
            Step::Read {
                client,
                file,
                block,
            },
        ) => {
            let own = side_at(client, file, table);
            !own.read_needs_server(held[cell_of(client, file, block)])
        }
        Some(Step::Write { client, file, .. }) => {
            let own = side_at(client, file, table);
            !own.write_needs_server()
        }
        _ => false,
    }
}

// The client's side of the file.
fn side_at(client: usize, file: usize, table: &[u64; WORDS]) -> ClientFile
    requires { length table.now ≡ table_words }
    ensures { result ≡ side_held (word_at table.now (file % max_files) (10 + client % max_clients)) }
{
    side_of(table[file % MAX_FILES * ROW + (10 + client % MAX_CLIENTS)])
}

// The records of a step, where so much was said. A record is stored, and stays where it counts: the next is stored over
// it otherwise.
pub fn trace_of(
    stations: usize,
    step: Option<Step>,
    itself: bool,
    said: u64,
    words: &[u64; SAID],
) -> Trace
    requires { length words.now ≡ said_room }
    ensures count_le_trace_room { result.count ≤ trace_room }
    ensures records_value { sent_given step itself (reply_said said words.now) ≤ max_blocks
        → take result.count result.records
        ≡ records_given stations step itself (reply_said said words.now) (calls_said said words.now)
        (grants_said said words.now) }
{
    let mut records = [note(0, TraceKind::Open, TraceOutcome::Done); TRACE];
    let Some(step) = step else {
        return Trace { records, count: 0 };
    };
    if !names_station(stations, step) {
        return Trace { records, count: 0 };
    }
    let station = asked(step).client as u8;
    records[0] = note(station, kind_of(step), outcome_of(itself, said));
    let sent = sent_by(step, itself, said, words);
    for block in 0..sent {
        records[block + 1] = note(station, TraceKind::Sent, TraceOutcome::Done);
    }
    let mut count = sent + 1;
    let calls = calls_with(said, words);
    let places = places_called(said);
    for called in 0..places {
        records[count] = note(called as u8, TraceKind::Call, TraceOutcome::Done);
        count += one_if(calls[called] != 0);
    }
    let answered = opener_answered(said, words);
    records[count] = note(answered, TraceKind::Open, TraceOutcome::Done);
    count += one_if(answered != NOBODY);
    let files = places_granted(said);
    for k in 0..files {
        let opener = opener_beside(said, words, k);
        records[count] = note(opener, TraceKind::Open, TraceOutcome::Done);
        count += one_if(opener != NOBODY);
    }
    Trace { records, count }
}

fn note(station: u8, kind: TraceKind, outcome: TraceOutcome) -> TraceRecord
    ensures { result ≡ noted station kind outcome }
{
    TraceRecord {
        station,
        kind,
        outcome,
    }
}

// Whether the step is one that names a station, and that station is in force.
fn names_station(stations: usize, step: Step) -> bool
    ensures { result ≡ names_station stations step }
{
    let client = asked(step).client;
    (client < stations) & (client < MAX_CLIENTS) & !is_servers(step)
}

fn is_servers(step: Step) -> bool
    ensures { result ≡ is_servers step }
{
    matches!(step, Step::Crash | Step::End)
}

fn kind_of(step: Step) -> TraceKind
    ensures { result ≡ kind_of step }
{
    match step {
        Step::Open { .. } => TraceKind::Open,
        Step::Close { .. } => TraceKind::Close,
        Step::Read { .. } => TraceKind::Read,
        _ => TraceKind::Other,
    }
}

// By the letter of the reply.
fn outcome_of(itself: bool, said: u64) -> TraceOutcome
    ensures { (words : List ℕ) → result ≡ outcome_of itself (reply_said said words) }
{
    match letter_of(said) {
        b'N' => TraceOutcome::Refused,
        b'W' => TraceOutcome::Pending,
        b'V' => {
            if itself {
                TraceOutcome::Hit
            } else {
                TraceOutcome::Fetched
            }
        }
        _ => TraceOutcome::Done,
    }
}

// How many blocks the step sent, by the letter of the reply: at most as many as a file has.
fn sent_by(step: Step, itself: bool, said: u64, words: &[u64; SAID]) -> usize
    requires { length words.now ≡ said_room }
    ensures upper_bound { result ≤ max_blocks }
    ensures value { sent_by step itself (reply_said said words.now) ≤ max_blocks
        → result ≡ sent_by step itself (reply_said said words.now) }
{
    match letter_of(said) {
        b'A' => words[0].min(MAX_BLOCKS as u64) as usize,
        b'G' | b'N' | b'V' | b'W' => 0,
        _ => one_if(sends_one(step, itself)),
    }
}

// Whether a step that is done sent a block.
fn sends_one(step: Step, itself: bool) -> bool
    ensures { result ≡ sends_one step itself }
{
    match step {
        Step::Write { .. } => !itself,
        Step::Flush { .. } => true,
        _ => false,
    }
}

// How many stations may be called: all, or none.
fn places_called(said: u64) -> usize
    ensures { result ≡ cond (calls? (letter_said said)) max_clients 0 }
{
    if letter_of(said) == b'W' {
        MAX_CLIENTS
    } else {
        0
    }
}

// Whose open an answer granted, or nobody.
fn opener_answered(said: u64, words: &[u64; SAID]) -> u8
    requires { length words.now ≡ said_room }
    ensures { open_records (brought (reply_said said words.now)) ≡ open_record result }
{
    if (letter_of(said) == b'A') & (said / 256 != 1) {
        return (words[1] % 256) as u8;
    }
    NOBODY
}

// On how many files the opens of others may be granted: all, or none.
fn places_granted(said: u64) -> usize
    ensures by_index { (words : List ℕ) → open_records (take result (grants_said said words)) ≡ open_records (grants_said said words) }
    ensures upper_bound { result ≤ max_files }
{
    let letter = letter_of(said);
    let count = said / 256;
    if ((letter == b'K') & (0 < count)) | ((letter == b'A') & (5 < count)) {
        MAX_FILES
    } else {
        0
    }
}

// Whose open is the k-th of those that stand beside the reply, or nobody.
fn opener_beside(said: u64, words: &[u64; SAID], k: usize) -> u8
    requires words_len { length words.now ≡ said_room }
    requires k_lt_max_files { k < max_files }
    ensures { result ≡ (get_or (grants_said said words.now) k no_granting).client }
{
    match letter_of(said) {
        b'K' => opener_at(0, said / 256, words, k),
        b'A' => opener_at(5, said / 256, words, k),
        _ => NOBODY,
    }
}

fn opener_at(from: usize, count: u64, words: &[u64; SAID], k: usize) -> u8
    requires words_len { length words.now ≡ said_room }
    requires from_bound { from ≤ 5 }
    requires k_lt_max_files { k < max_files }
    ensures { result ≡ (get_or (grants_from from count words.now) k no_granting).client }
{
    let at = from + 4 * k;
    if (at as u64) < count {
        return (words[at] % 256) as u8;
    }
    NOBODY
}
