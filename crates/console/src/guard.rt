// The file that an image is to be written to, looked at before anything is played, so that no other file is lost. What
// is left as it is, is told of.
ghost use Rattle.std.specs.Prelude.{◌≡◌, not};
ghost use Rattle.protocol.specs.Reply.{is_refused};
ghost use Rattle.service.specs.Fresh.{fresh};
ghost use Rattle.restore.specs.Reading.{reading_of, sizes_in};

use crate::arguments::{argument_at, argument_buffer};
use crate::files::{name_beside, name_buffer, open_update, path_of};
use crate::host::Host;
use crate::images::{image_buffer, reading_of};
use input::read_to_end;
use std::fs::{Metadata, OpenFile};
use std::io;
use std::io::{ErrorKind, Read};
use std::rt::{Env, Files};

// The places of the arguments that name the image to begin with and the image to write at the end.
#[derive(Clone, Copy)]
pub struct Images {
    pub read: Option<usize>,
    pub written: Option<usize>,
}

impl<R: Env + Files, E: Print> Host<'_, R, E> {
    // Whether the image may be written. It goes to the name beside its own first, and what stood there goes: neither
    // name may be that of the input, and the name beside not that of the image to begin with.
    pub fn may_write(&self, input: &[u8], images: Images) -> bool {
        let Some(place) = images.written else {
            return true;
        };
        let mut name = argument_buffer();
        let length = argument_at(self.rt, place, &mut name);
        let mut new_name = name_buffer();
        let count = name_beside(&name[..length], &mut new_name);
        if (input == &name[..length]) | (input == &new_name[..count]) {
            self.leave(input, b"an input of this run");
            return false;
        }
        if self.is_read(images.read, &new_name[..count]) {
            self.leave(&new_name[..count], b"an input of this run");
            return false;
        }
        self.is_free(&name[..length], false) && self.is_free(&new_name[..count], true)
    }

    // Whether an image is read, and the argument at this place is the name.
    fn is_read(&self, image: Option<usize>, name: &[u8]) -> bool {
        let Some(place) = image else {
            return false;
        };
        let mut text = argument_buffer();
        let length = argument_at(self.rt, place, &mut text);
        &text[..length] == name
    }

    // Whether no file has the name, or an empty one, or an image; or, whatever it holds, a plain file.
    fn is_free(&self, name: &[u8], whatever: bool) -> bool {
        if is_link(self.rt, name) {
            self.leave(name, b"a link");
            return false;
        }
        // For reading and writing, since the open of a FIFO for reading alone waits for a writer.
        match open_update(self.rt, name) {
            Ok(mut file) => self.is_free_file(name, &mut file, whatever),
            Err(error) => self.is_missing(name, error),
        }
    }

    // The open has failed. There is no file of this name, or a directory, whose place no file takes; what else stands
    // there is left.
    fn is_missing(&self, name: &[u8], error: io::Error) -> bool {
        match error.kind() {
            ErrorKind::NotFound | ErrorKind::NotADirectory | ErrorKind::IsADirectory => true,
            ErrorKind::InvalidFilename => true,
            _ => {
                self.fail(name, error);
                false
            }
        }
    }

    // A FIFO and a device have no bytes that could be stored: the sync fails.
    fn is_free_file(&self, name: &[u8], file: &mut (impl Read + OpenFile), whatever: bool) -> bool {
        if file.sync_all().is_err() {
            self.leave(name, b"not a plain file");
            return false;
        }
        if whatever {
            return true;
        }
        let mut bytes = image_buffer();
        let content = read_to_end(file, &mut bytes);
        if let Some(error) = content.failure {
            self.fail(name, error);
            return false;
        }
        if content.count == 0 || is_image(&bytes[..content.count]) {
            return true;
        }
        self.leave(name, b"not an image");
        false
    }
}

// Whether the bytes are an image, of the sizes that they begin with.
fn is_image(bytes: &[u8]) -> bool
    ensures { result
        ≡ not (is_refused (reading_of (fresh (sizes_in bytes.now)) bytes.now).reply) }
{
    let reply = reading_of(bytes).reply;
    !reply.is_refused()
}

fn is_link(rt: &impl Files, name: &[u8]) -> bool {
    found_at(rt, name).is_ok_and(|found| found.is_symlink())
}

// What stands at the name, where a link is not followed.
fn found_at(rt: &impl Files, name: &[u8]) -> io::Result<Metadata> {
    std::fs::symlink_metadata(rt, path_of(name)?)
}
