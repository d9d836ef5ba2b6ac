// What the arguments ask for, and how it is done. All arguments are looked at before anything is played.
ghost use Rattle.std.specs.Prelude.{◌≡◌, ◌≤◌, length, take};

use crate::guard::Images;
use crate::host::Host;
use crate::teller::Teller;
use options::{Act, Argument, Request, argument_of};
use std::env::FillError;
use std::rt::{Env, Files};

impl<R: Env + Files + Input + Print, E: Print> Host<'_, R, E> {
    // Runs the program: its teller makes of a line, and at the end, what it prints, in an output buffer of this room.
    pub fn run<T: Teller, const ROOM: usize>(&self)
        requires enough { T.room ≤ ROOM }
        requires few { ROOM ≤ 1048576 }
    {
        let count = argument_count(self.rt);
        let request = self.request_of(count);
        let images = Images {
            read: request.read,
            written: request.written,
        };
        match request.act(count) {
            Act::Nothing => {}
            Act::RefuseName { writing } => self.refuse_image_option(writing, b"no file name"),
            Act::PrintHelp => self.print_help(),
            Act::PrintVersion => self.print_version(),
            Act::RefuseInputs { writing } => {
                self.refuse_image_option(writing, b"more than one input");
            }
            Act::PlayStdin => {
                self.play_stdin::<T, ROOM>(false, images);
            }
            Act::PlayNames { headed } => self.play_names::<T, ROOM>(count, headed, images),
        }
    }

    // Plays each input that an argument names, until standard output fails.
    fn play_names<T: Teller, const ROOM: usize>(&self, count: usize, headed: bool, images: Images)
        requires enough { T.room ≤ ROOM }
        requires few { ROOM ≤ 1048576 }
    {
        let mut request = Request::new();
        for i in 1..count {
            let Some(after) = self.play_argument::<T, ROOM>(i, i + 1, request, headed, images)
            else {
                return;
            };
            request = after;
        }
    }

    // Plays what argument i names, and answers the request with it; none if standard output takes no more.
    fn play_argument<T: Teller, const ROOM: usize>(
        &self,
        i: usize,
        next: usize,
        request: Request,
        headed: bool,
        images: Images,
    ) -> Option<Request>
        requires enough { T.room ≤ ROOM }
        requires few { ROOM ≤ 1048576 }
    {
        let mut text = argument_buffer();
        let length = argument_at(self.rt, i, &mut text);
        let argument = argument_of(&text[..length], i, request);
        let writes = match argument {
            Argument::Name => self.play_file::<T, ROOM>(&text[..length], headed, images),
            Argument::Stdin => self.play_stdin::<T, ROOM>(headed, images),
            _ => true,
        };
        writes.then_some(request.with(argument, next))
    }
}

impl<R: Env, E: Print> Host<'_, R, E> {
    // What the arguments ask for. Argument 0 is the program's own name.
    fn request_of(&self, count: usize) -> Request {
        let mut request = Request::new();
        for i in 1..count {
            request = self.with_argument(i, i + 1, request);
        }
        request
    }

    // The request with argument i; one that is not understood is told of.
    fn with_argument(&self, i: usize, next: usize, request: Request) -> Request {
        let mut text = argument_buffer();
        let Ok(length) = self.rt.arg(i, &mut text) else {
            self.refuse_long(i);
            return request.with(Argument::Unknown, next);
        };
        let argument = argument_of(&text[..length], i, request);
        match argument {
            Argument::Unknown => self.refuse_option(&text[..length], b"unknown option"),
            Argument::NoName => self.refuse_option(&text[..length], b"no file name"),
            Argument::Repeated => self.refuse_option(&text[..length], b"given twice"),
            _ => {}
        }
        request.with(argument, next)
    }
}

// How many arguments there are, the program's own name among them.
fn argument_count(rt: &impl Env) -> usize {
    let mut text = argument_buffer();
    for count in 0..usize::MAX {
        if let Err(FillError::NotPresent) = rt.arg(count, &mut text) {
            return count;
        }
    }
    usize::MAX
}

// Puts the argument at this place into the buffer, and answers its length; 0 if it is not there or does not fit.
pub fn argument_at(rt: &impl Env, place: usize, text: &mut [u8]) -> usize
    ensures within { result ≤ length text.new }
    ensures prefix { result ≡ length (take result text.new) }
{
    rt.arg(place, text).unwrap_or(0)
}

// No path is longer than 4,096 bytes.
pub fn argument_buffer() -> [u8; 4096] {
    [0; 4096]
}
