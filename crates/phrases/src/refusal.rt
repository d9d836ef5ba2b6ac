// What is said of a refusal.
ghost use Rattle.std.specs.Prelude.{◌+◌, ◌≤◌, ◌++◌, length};
ghost use Rattle.sizes.specs.Sizes.{max_clients};
ghost use Rattle.stepfile.specs.Text.{argument_text};
ghost use Rattle.writer.specs.Buffer.{Wrote};
ghost use Rattle.phrases.specs.Phrase.{client_text, embargo_text};
ghost use Rattle.phrases.specs.Refusal.{no_call_text, count_full_text, not_dirty_text, version_spent_text};
ghost use Rattle.phrases.specs.Refusal.{needed_text, not_open_text};
ghost use Rattle.phrases.specs.Refusal.{missing_text, refusal_text};

use crate::pending::{put_missing, put_open_waits};
use crate::phrase::{
    mode_by_kind, put_block, put_client, put_embargo, put_file, put_for, put_numbered,
    put_of_client, put_open,
};
use protocol::{Entry, Step, asked};
use records::Mode;
use sizes::{MAX_CLIENTS, Sizes};
use writer::{put_argument, put_text};

// The sentence of a refusal, by its number. An open of the file waits since a line, and the client is under embargo
// since a line.
// Stays: the number of the refusal is matched, since `Reply::Refused` carries a number, and `refusal_text` promises the
// answer for each of them, those that are no refusal's too.
pub fn put_refusal(
    out: &mut [u8],
    at: usize,
    sizes: Sizes,
    reported: [bool; MAX_CLIENTS],
    embargoed: [bool; MAX_CLIENTS],
    entry: Entry,
    since: u64,
    embargo: u64,
    step: Step,
    number: u8,
) -> usize
    requires clients_le_max_clients { sizes.clients ≤ max_clients }
    requires at_in_bounds { at + 305 ≤ length out.old }
    ensures wrote { Wrote out.old at
        (refusal_text sizes reported embargoed entry since embargo step number) out.new result }
    ensures upper_bound { result ≤ at + 305 }
{
    let named = asked(step);
    let client = named.client;
    let file = named.file;
    match number {
        2 => put_none(
            out,
            at,
            b"there is no station",
            client,
            b"; there are",
            sizes.clients,
        ),
        3 => put_none(
            out,
            at,
            b"there is no file",
            file,
            b"; there are",
            sizes.files,
        ),
        4 => put_none(
            out,
            at,
            b"there is no block",
            named.block,
            b"; a file has",
            sizes.blocks,
        ),
        5 => put_unheard(
            out,
            at,
            b"the server recovers",
            sizes.clients,
            reported,
            embargoed,
        ),
        6 => put_text(out, at, b"no recovery is under way"),
        7 => put_of_client(out, at, client, b" has reported before"),
        8 => put_unheard(
            out,
            at,
            b"the recovery cannot end",
            sizes.clients,
            reported,
            embargoed,
        ),
        9 => put_open_waits(out, at, sizes.clients, entry, file, since),
        10 => put_no_call(out, at, client, file),
        11 => put_not_open(out, at, step, client, file),
        12 => put_count_full(out, at, mode_by_kind(named.kind), client, file),
        13 => put_not_dirty(out, at, client, file, named.block),
        14 => put_version_spent(out, at, file),
        20 => put_aside(out, at, client, embargo),
        21 => put_of_client(out, at, client, b" is not under embargo"),
        _ => at,
    }
}

// What the server does in the recovery, and who has still to report.
fn put_unheard(
    out: &mut [u8],
    at: usize,
    text: &[u8],
    clients: usize,
    reported: [bool; MAX_CLIENTS],
    embargoed: [bool; MAX_CLIENTS],
) -> usize
    requires clients_le_max_clients { clients ≤ max_clients }
    requires at_in_bounds { at + (length text.now + 195) ≤ length out.old }
    ensures wrote { Wrote out.old at
        (text.now ++ missing_text clients reported embargoed) out.new result }
    ensures upper_bound { result ≤ at + (length text.now + 195) }
{
    let missing = put_text(out, at, text);
    put_missing(out, missing, clients, reported, embargoed)
}

fn put_aside(out: &mut [u8], at: usize, client: usize, embargo: u64) -> usize
    requires { at + 77 ≤ length out.old }
    ensures wrote { Wrote out.old at (client_text client ++ embargo_text embargo) out.new result }
    ensures upper_bound { result ≤ at + 77 }
{
    let word = put_client(out, at, client);
    put_embargo(out, word, embargo)
}

// There is nothing of the number, and how many there are.
fn put_none(
    out: &mut [u8],
    at: usize,
    none: &[u8],
    number: usize,
    most: &[u8],
    count: usize,
) -> usize
    requires { at + (length none.now + (length most.now + 42)) ≤ length out.old }
    ensures wrote { Wrote out.old at
        (none.now ++ (argument_text number ++ (most.now ++ argument_text count))) out.new result }
    ensures upper_bound { result ≤ at + (length none.now + (length most.now + 42)) }
{
    let word = put_text(out, at, none);
    let next = put_argument(out, word, number as u64);
    put_numbered(out, next, most, count as u64)
}

fn put_no_call(out: &mut [u8], at: usize, client: usize, file: usize) -> usize
    requires { at + 79 ≤ length out.old }
    ensures wrote { Wrote out.old at (no_call_text client file) out.new result }
    ensures upper_bound { result ≤ at + 79 }
{
    let word = put_client(out, at, client);
    let named = put_text(out, word, b" has no call to answer on");
    put_file(out, named, file)
}

fn put_count_full(out: &mut [u8], at: usize, mode: Mode, client: usize, file: usize) -> usize
    requires { at + 106 ≤ length out.old }
    ensures wrote { Wrote out.old at (count_full_text mode client file) out.new result }
    ensures upper_bound { result ≤ at + 106 }
{
    let times = put_open(out, at, mode, client, file);
    put_text(out, times, b" 255 times, the most there can be")
}

fn put_not_dirty(out: &mut [u8], at: usize, client: usize, file: usize, block: usize) -> usize
    requires { at + 102 ≤ length out.old }
    ensures wrote { Wrote out.old at (not_dirty_text client file block) out.new result }
    ensures upper_bound { result ≤ at + 102 }
{
    let word = put_client(out, at, client);
    let named = put_text(out, word, b" has no dirty copy of");
    put_block(out, named, file, block)
}

fn put_version_spent(out: &mut [u8], at: usize, file: usize) -> usize
    requires { at + 91 ≤ length out.old }
    ensures wrote { Wrote out.old at (version_spent_text file) out.new result }
    ensures upper_bound { result ≤ at + 91 }
{
    let named = put_text(
        out,
        at,
        b"version 4294967295 is the last, and no write open of",
    );
    let word = put_file(out, named, file);
    put_text(out, word, b" can raise it")
}

fn put_not_open(out: &mut [u8], at: usize, step: Step, client: usize, file: usize) -> usize
    requires { at + 83 ≤ length out.old }
    ensures wrote { Wrote out.old at (not_open_text step client file) out.new result }
    ensures upper_bound { result ≤ at + 83 }
{
    let word = put_client(out, at, client);
    let named = put_text(out, word, b" does not have");
    let open = put_file(out, named, file);
    let mode_at = put_text(out, open, b" open");
    put_needed(out, mode_at, step)
}

// The open that is missing.
fn put_needed(out: &mut [u8], at: usize, step: Step) -> usize
    requires { at + 10 ≤ length out.old }
    ensures wrote { Wrote out.old at (needed_text step) out.new result }
    ensures upper_bound { result ≤ at + 10 }
{
    match step {
        Step::Close { mode, .. } => put_for(out, at, mode),
        Step::Write { .. } => put_for(out, at, Mode::Write),
        _ => at,
    }
}
