// The line of the store.
ghost use Rattle.std.specs.Prelude.{◌+◌, ◌≤◌, length};
ghost use Rattle.service.specs.Contents.{sizes_of, table_in, free_of};
ghost use Rattle.writer.specs.Buffer.{Wrote};
ghost use Rattle.picture.specs.Picture.{store_text};

use ledger::Annotated;
use phrases::{put_numbered, put_places};
use sizes::at_most;
use writer::put_byte;

// Its size, what is used, reserved and by whom, and what is free.
pub fn put_store(out: &mut [u8], at: usize, state: Annotated) -> usize
    requires { at + 308 ≤ length out.old }
    ensures wrote { Wrote out.old at
        (store_text (sizes_of state.service) state.service.server.used (table_in state.service).embargoed
        state.service.dirty (free_of state.service))
        out.new result }
    ensures upper_bound { result ≤ at + 308 }
{
    let service = state.service;
    let sizes = service.sizes.in_force();
    let server = service.server;
    let free = at_most(server.free, sizes.store);
    let word = put_places(
        out,
        at,
        sizes,
        &server.used,
        server.table.embargoed,
        &service.dirty,
    );
    let feed = put_numbered(out, word, b"; free:", free as u64);
    put_byte(out, feed, b'\n')
}
