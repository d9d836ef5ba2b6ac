// The whole picture.
ghost use Rattle.std.specs.Prelude.{◌+◌, ◌≤◌, length};
ghost use Rattle.service.specs.Contents.{sizes_of};
ghost use Rattle.writer.specs.Buffer.{Wrote, WroteIfRoom};
ghost use Rattle.picture.specs.Picture.{asides_text, files_text, picture_text, picture_room};

use crate::aside::put_aside_if;
use crate::files::put_file;
use crate::refused::put_refusals;
use crate::server::put_server;
use crate::store::put_store;
use ledger::Annotated;
use phrases::put_text;
use sizes::MAX_FILES;
use writer::has_room;

// The room that the picture is given: more than any picture takes.
pub const PICTURE_ROOM: usize = 620000;

// Writes the picture, and answers the offset past it. Where the buffer has less than PICTURE_ROOM bytes from the offset
// on, writes nothing and answers the offset.
pub fn write_picture(out: &mut [u8], at: usize, state: Annotated) -> usize
    ensures wrote_if_room { WroteIfRoom picture_room out.old at (picture_text state) out.new result }
    ensures upper_bound { result ≤ at + picture_room }
{
    if !has_room(out, at, PICTURE_ROOM) {
        return at;
    }
    put_picture(out, at, state)
}

fn put_picture(out: &mut [u8], at: usize, state: Annotated) -> usize
    requires { at + picture_room ≤ length out.old }
    ensures wrote { Wrote out.old at (picture_text state) out.new result }
    ensures upper_bound { result ≤ at + picture_room }
{
    let service = state.service;
    let store = put_server(out, at, service.sizes.in_force(), service.server.table);
    let asides = put_store(out, store, state);
    let files = put_asides(out, asides, state);
    let refused = put_files(out, files, state);
    let end = put_refusals(out, refused, state.refusals);
    put_text(out, end, b"end of the picture\n")
}

// The stations under embargo, ascending.
fn put_asides(out: &mut [u8], at: usize, state: Annotated) -> usize
    requires { at + 340704 ≤ length out.old }
    ensures wrote { Wrote out.old at (asides_text state (sizes_of state.service).clients)
        out.new result }
    ensures upper_bound { result ≤ at + 340704 }
{
    let service = state.service;
    let ledger = state.ledger;
    let sizes = service.sizes.in_force();
    let mut next = at;
    for client in 0..sizes.clients {
        next = put_aside_if(
            out,
            next,
            service.server.table.embargoed[client],
            sizes,
            &service.dirty,
            &ledger.copied,
            client,
            ledger.since[MAX_FILES + client],
        );
    }
    next
}

// The files, ascending.
fn put_files(out: &mut [u8], at: usize, state: Annotated) -> usize
    requires { at + 267840 ≤ length out.old }
    ensures wrote { Wrote out.old at (files_text state (sizes_of state.service).files)
        out.new result }
    ensures upper_bound { result ≤ at + 267840 }
{
    let service = state.service;
    let sizes = service.sizes.in_force();
    let mut next = at;
    for file in 0..sizes.files {
        next = put_file(
            out,
            next,
            sizes,
            &service.held,
            &service.dirty,
            service.clients[file],
            service.server.table.files[file],
            file,
            state.ledger.since[file],
        );
    }
    next
}
