// Which clients have still to report or to answer.
ghost use Rattle.std.specs.Prelude.{◌+◌, ◌≤◌, length};
ghost use Rattle.sizes.specs.Sizes.{max_clients};
ghost use Rattle.writer.specs.Buffer.{Wrote};
ghost use Rattle.phrases.specs.Accepted.{waiter_text, still_text};
ghost use Rattle.phrases.specs.Refusal.{missing_text, open_waits_text};

use crate::list::put_numbers;
use crate::phrase::{put_at_file, put_numbered};
use decision::asks_nothing;
use protocol::Entry;
use records::Mode;
use sizes::MAX_CLIENTS;
use writer::put_text;

// Who has still to report; the server does not wait for those under embargo.
pub fn put_missing(
    out: &mut [u8],
    at: usize,
    clients: usize,
    reported: [bool; MAX_CLIENTS],
    embargoed: [bool; MAX_CLIENTS],
) -> usize
    requires clients_le_max_clients { clients ≤ max_clients }
    requires at_in_bounds { at + 195 ≤ length out.old }
    ensures wrote { Wrote out.old at (missing_text clients reported embargoed) out.new result }
    ensures upper_bound { result ≤ at + 195 }
{
    let list = put_text(out, at, b"; stations still to report:");
    put_numbers(out, list, clients, |i| !(reported[i] | embargoed[i]))
}

// Who has still to answer.
pub fn put_still(out: &mut [u8], at: usize, clients: usize, entry: Entry) -> usize
    requires clients_le_max_clients { clients ≤ max_clients }
    requires at_in_bounds { at + 195 ≤ length out.old }
    ensures wrote { Wrote out.old at (still_text clients entry) out.new result }
    ensures upper_bound { result ≤ at + 195 }
{
    let list = put_text(out, at, b"; stations still to answer:");
    put_numbers(out, list, clients, |i| {
        !asks_nothing(entry.call_to(clients, i))
    })
}

// Who waits to open the file, since which line, and who has still to answer.
pub fn put_open_waits(
    out: &mut [u8],
    at: usize,
    clients: usize,
    entry: Entry,
    file: usize,
    since: u64,
) -> usize
    requires clients_le_max_clients { clients ≤ max_clients }
    requires at_in_bounds { at + 305 ≤ length out.old }
    ensures wrote { Wrote out.old at (open_waits_text clients entry file since) out.new result }
    ensures upper_bound { result ≤ at + 305 }
{
    let word = put_opener(out, at, entry.mode, entry.waiter as usize, file);
    let still = put_numbered(out, word, b" since line", since);
    put_still(out, still, clients, entry)
}

// Who waits to open the file.
pub fn put_opener(out: &mut [u8], at: usize, mode: Mode, client: usize, file: usize) -> usize
    requires { at + 78 ≤ length out.old }
    ensures wrote { Wrote out.old at (waiter_text mode client file) out.new result }
    ensures upper_bound { result ≤ at + 78 }
{
    put_at_file(out, at, client, b" waits to open", file, mode)
}
