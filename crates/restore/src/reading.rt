// An image, read into a service.
ghost use Rattle.std.specs.Prelude.{◌≤◌, ◌≡◌};
ghost use Rattle.sizes.specs.Sizes.{max_clients, max_files, Permitted};
ghost use Rattle.image.specs.Image.{image_bytes};
ghost use Rattle.restore.specs.Exact.{AcceptsExactly};
ghost use Rattle.restore.specs.Reading.{same_bytes, with_versions, with_embargoes, with_contents};
ghost use Rattle.restore.specs.Reading.{reading_of, sizes_in};

use crate::decoding::decode;
use crate::numbers::{byte_at, two_at};
use crate::places::with_places;
use crate::used::{count_used, places_left};
use image::{Contents, IMAGE_ROOM, put_image};
use protocol::{Entry, Granting, Refusal, Reply};
use service::{Outcome, Server, Service};
use sizes::{MAX_CLIENTS, MAX_FILES, Sizes};
use table::Table;

// The sizes with which the bytes begin, 0 for those that are missing. An image is of the sizes with which it begins.
pub fn image_sizes(bytes: &[u8]) -> Sizes
    ensures { result ≡ sizes_in bytes.now }
{
    Sizes {
        clients: byte_at(bytes, 0) as usize,
        files: byte_at(bytes, 1) as usize,
        blocks: byte_at(bytes, 2) as usize,
        store: two_at(bytes, 3) as usize,
    }
}

// Takes the versions, used blocks, blocks and embargoes of the image, and is otherwise a crash; what is not used is
// free. Refused with 17, the service stays as it came: the bytes are not the image of what they hold.
pub fn read_image(service: Service, bytes: &[u8]) -> Outcome
    ensures value { result ≡ reading_of service bytes.now }
    ensures accepts_exactly { AcceptsExactly service bytes.now result }
{
    let none = Granting::none();
    let sizes = service.sizes.in_force();
    let contents = decode(bytes);
    if !is_image(bytes, sizes, &contents) {
        return Outcome {
            service,
            reply: Reply::from(Refusal::NoImage),
            calls: [0; MAX_CLIENTS],
            grants: [none; MAX_FILES],
        };
    }
    let crashed = service.crashed();
    Outcome {
        service: with_contents(crashed, &contents),
        reply: Reply::Done,
        calls: [0; MAX_CLIENTS],
        grants: [none; MAX_FILES],
    }
}

// Whether the bytes are the image of these contents.
fn is_image(bytes: &[u8], sizes: Sizes, contents: &Contents) -> bool
    requires { Permitted sizes }
    ensures { result ≡ same_bytes bytes.now
        (image_bytes sizes contents.now.files contents.now.used contents.now.blocks contents.now.embargoed) }
{
    let mut image = [0u8; IMAGE_ROOM];
    let length = put_image(&mut image, sizes, contents);
    bytes == &image[..length]
}

// The service with the versions, used blocks, blocks and embargoes of the image, as far as the sizes in force go.
fn with_contents(service: Service, contents: &Contents) -> Service
    ensures { result ≡ with_contents service
        contents.now.files contents.now.used contents.now.blocks contents.now.embargoed }
{
    let sizes = service.sizes.in_force();
    let server = service.server;
    let table = server.table;
    let used = with_places(server.used, &contents.used, sizes);
    Service {
        server: Server {
            table: Table {
                files: with_versions(table.files, &contents.files, sizes.files),
                embargoed: with_embargoes(table.embargoed, &contents.embargoed, sizes.clients),
                ..table
            },
            blocks: with_places(server.blocks, &contents.blocks, sizes),
            used,
            free: places_left(sizes.store, count_used(&used, sizes)),
        },
        ..service
    }
}

// The entries with the versions of the others, as they are read, for so many files.
fn with_versions(
    mut files: [Entry; MAX_FILES],
    others: &[Entry; MAX_FILES],
    count: usize,
) -> [Entry; MAX_FILES]
    requires { count ≤ max_files }
    ensures { result ≡ with_versions count others.now files }
{
    for f in 0..count {
        files[f].version = others[f].version.as_read();
    }
    files
}

// The embargoes with those of the others, for so many clients.
fn with_embargoes(
    mut embargoed: [bool; MAX_CLIENTS],
    others: &[bool; MAX_CLIENTS],
    count: usize,
) -> [bool; MAX_CLIENTS]
    requires { count ≤ max_clients }
    ensures { result ≡ with_embargoes count others.now embargoed }
{
    embargoed[..count].copy_from_slice(&others[..count]);
    embargoed
}
