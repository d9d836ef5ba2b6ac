// The image of a service, written into a lent buffer.
ghost use Rattle.std.specs.Prelude.{◌≤◌, ◌≡◌, length, take};
ghost use Rattle.sizes.specs.Sizes.{Permitted};
ghost use Rattle.std.specs.List.{list_any};
ghost use Rattle.protocol.specs.Entry.{waits};
ghost use Rattle.image.specs.Fits.{Fits};
ghost use Rattle.image.specs.Writing.{image_written, buffer_after, refusal_to_write, Tells};

use crate::contents::Contents;
use crate::sections::{IMAGE_ROOM, put_image};
use protocol::{Entry, Refusal, refuse_if};
use service::Service;
use sizes::{MAX_FILES, Sizes};

// Writes the image of the server and tells its length. The bytes past it stay. Refused, all of the buffer stays: the
// image is put together beside it and then copied.
pub fn write_image(service: Service, out: &mut [u8]) -> Result<usize, Refusal>
    ensures value { result ≡ image_written service (length out.old) }
    ensures out_after { out.new ≡ buffer_after service out.old }
    ensures tells { Tells service (length out.old) result }
    ensures fits { Fits service }
{
    let sizes = service.sizes.in_force();
    let server = service.server;
    let table = server.table;
    // Stays: an array that comes from a field goes into a struct by way of a variable; no proof is made otherwise.
    let files = table.files;
    let used = server.used;
    let blocks = server.blocks;
    let embargoed = table.embargoed;
    let contents = Contents {
        files,
        used,
        blocks,
        embargoed,
    };
    let mut image = [0u8; IMAGE_ROOM];
    let length = put_image(&mut image, sizes, &contents);
    let waits = some_open_waits(files, sizes);
    refusal_to_write(table.recovering, waits, out.len() < length)?;
    out[..length].copy_from_slice(&image[..length]);
    Ok(length)
}

fn refusal_to_write(recovering: bool, waits: bool, short: bool) -> Result<(), Refusal>
    ensures { result ≡ refusal_to_write recovering waits short }
{
    refuse_if(recovering, Refusal::InRecovery)?;
    refuse_if(waits, Refusal::OpenWaitsAtWriting)?;
    refuse_if(short, Refusal::BufferTooShort)
}

// Whether an open of one of the files waits.
fn some_open_waits(files: [Entry; MAX_FILES], sizes: Sizes) -> bool
    requires { Permitted sizes }
    ensures { result ≡ list_any (λ e. waits sizes.clients e) (take sizes.files files) }
{
    files[..sizes.files]
        .iter()
        .any(|entry| entry.waits(sizes.clients))
}
