// The heading of a file.
ghost use Rattle.std.specs.Prelude.{◌+◌, ◌≤◌, ◌++◌, length};
ghost use Rattle.sizes.specs.Sizes.{max_clients};
ghost use Rattle.stepfile.specs.Text.{bytes, argument_text};
ghost use Rattle.stepfile.specs.Summary.{version_in};
ghost use Rattle.writer.specs.Buffer.{Wrote};
ghost use Rattle.picture.specs.Picture.{last_text, head_text};

use decision::state_of;
use phrases::{put_numbered, put_state, put_text};
use protocol::Entry;
use writer::{put_argument, put_byte, version_in};

// Its number, state, version and last writer.
pub fn put_head(out: &mut [u8], at: usize, clients: usize, entry: Entry, file: usize) -> usize
    requires clients_le_max_clients { clients ≤ max_clients }
    requires at_in_bounds { at + 109 ≤ length out.old }
    ensures wrote { Wrote out.old at (head_text clients entry file) out.new result }
    ensures upper_bound { result ≤ at + 109 }
{
    let word = put_numbered(out, at, b"file", file as u64);
    let name = put_text(out, word, b" is ");
    let level = put_state(out, name, state_of(entry.records, clients, entry.last));
    put_level(out, level, clients, entry)
}

// Its version and last writer.
fn put_level(out: &mut [u8], at: usize, clients: usize, entry: Entry) -> usize
    requires { at + 68 ≤ length out.old }
    ensures wrote { Wrote out.old at
        (bytes " at version" ++ (argument_text (version_in entry) ++ (last_text clients entry.last ++ bytes "\n")))
        out.new result }
    ensures upper_bound { result ≤ at + 68 }
{
    let last = put_numbered(out, at, b" at version", version_in(entry) as u64);
    let feed = put_last(out, last, clients, entry.last);
    put_byte(out, feed, b'\n')
}

// The last writer, or that there is none.
fn put_last(out: &mut [u8], at: usize, clients: usize, last: u8) -> usize
    requires { at + 35 ≤ length out.old }
    ensures wrote { Wrote out.old at (last_text clients last) out.new result }
    ensures upper_bound { result ≤ at + 35 }
{
    let name = put_text(out, at, b"; last writer:");
    if (last as usize) < clients {
        return put_argument(out, name, last as u64);
    }
    put_text(out, name, b" none")
}
