// The images that the arguments name: the service that a play begins with, and the file that one is written to.
ghost use Rattle.std.specs.Prelude.{◌≡◌, false};
ghost use Rattle.sizes.specs.Sizes.{default_sizes};
ghost use Rattle.service.specs.Fresh.{fresh};
ghost use Rattle.restore.specs.Reading.{reading_of, sizes_in};

use crate::arguments::{argument_at, argument_buffer};
use crate::host::Host;
use image::write_image;
use protocol::Reply;
use restore::{image_sizes, read_image};
use service::{Outcome, Service};
use sizes::Sizes;
use std::rt::{Env, Files};
use unsaved::write_unsaved;

// Where a play begins; when it has been told, the service is the one that it ended with.
#[derive(Clone, Copy)]
pub struct Start {
    // With the service of an image, which has its sizes; else with the fresh one, whose sizes line 1 may choose.
    pub resumed: bool,
    pub service: Service,
}

impl<R: Env + Files, E: Print> Host<'_, R, E> {
    // With the fresh service, or with the image in the file that the argument at this place names. There is no start if
    // the image could not be read, which is told of.
    pub fn start_of(&self, image: Option<usize>) -> Option<Start> {
        let Some(place) = image else {
            return Some(fresh_start());
        };
        let mut name = argument_buffer();
        let length = argument_at(self.rt, place, &mut name);
        self.start_from(&name[..length])
    }

    fn start_from(&self, name: &[u8]) -> Option<Start> {
        let mut bytes = image_buffer();
        let content = self.read_file(name, &mut bytes);
        if content.failure.is_some() {
            return None;
        }
        let outcome = reading_of(&bytes[..content.count]);
        let service = outcome.service;
        if let Reply::Refused(number) = outcome.reply {
            self.refuse_image(name, number);
            return None;
        }
        Some(Start {
            resumed: true,
            service,
        })
    }

    // Writes the image of the server to the file that the argument at this place names.
    pub fn save(&self, service: Service, place: usize) {
        let mut name = argument_buffer();
        let length = argument_at(self.rt, place, &mut name);
        self.save_as(service, &name[..length]);
    }

    // A refusal is told of, and leaves the file as it is. Blocks that the image does not have are told of too.
    fn save_as(&self, service: Service, name: &[u8]) {
        let mut bytes = image_buffer();
        let written = write_image(service, &mut bytes);
        match written {
            Ok(count) => {
                if self.replace_file(&bytes[..count], name) {
                    self.tell_unsaved(service);
                }
            }
            Err(refusal) => self.refuse_image(name, refusal.number()),
        }
    }

    // In a frame of its own, since its buffer is large and no play needs it while it tells an input.
    #[inline(never)]
    fn tell_unsaved(&self, service: Service) {
        let mut lines = lines_buffer();
        let count = write_unsaved(&mut lines, 0, self.program.number(), service);
        self.put(&lines[..count]);
    }
}

fn fresh_start() -> Start
    ensures resumed_value { result.resumed ≡ false }
    ensures service_value { result.service ≡ fresh default_sizes }
{
    Start {
        resumed: false,
        service: Service::new(Sizes::default()),
    }
}

// The bytes, read as an image by a fresh service of the sizes that they begin with.
pub fn reading_of(bytes: &[u8]) -> Outcome
    ensures { result ≡ reading_of (fresh (sizes_in bytes.now)) bytes.now }
{
    read_image(Service::new(image_sizes(bytes)), bytes)
}

// Room for UNSAVED_ROOM bytes.
fn lines_buffer() -> [u8; 524288] {
    [0; 524288]
}

// Room for more than the longest image: a longer file is none.
pub fn image_buffer() -> [u8; 8192] {
    [0; 8192]
}
