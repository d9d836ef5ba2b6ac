// The server's line.
ghost use Rattle.std.specs.Prelude.{◌+◌, ◌≤◌, length};
ghost use Rattle.sizes.specs.Sizes.{max_clients};
ghost use Rattle.writer.specs.Buffer.{Wrote};
ghost use Rattle.picture.specs.Picture.{server_text};

use phrases::{put_missing, put_text};
use sizes::Sizes;
use table::Table;
use writer::put_byte;

// It runs, or it recovers and some clients have still to report.
pub fn put_server(out: &mut [u8], at: usize, sizes: Sizes, table: Table) -> usize
    requires clients_le_max_clients { sizes.clients ≤ max_clients }
    requires at_in_bounds { at + 215 ≤ length out.old }
    ensures wrote { Wrote out.old at (server_text sizes table) out.new result }
    ensures upper_bound { result ≤ at + 215 }
{
    if table.recovering {
        let missing = put_text(out, at, b"the server recovers");
        let feed = put_missing(out, missing, sizes.clients, table.reported, table.embargoed);
        return put_byte(out, feed, b'\n');
    }
    put_text(out, at, b"the server runs\n")
}
