// The inputs: standard input and named files, each played from its start to its end.
ghost use Rattle.std.specs.Prelude.{◌≤◌};

use crate::files::open_read;
use crate::guard::Images;
use crate::host::Host;
use crate::input_loop::tell;
use crate::teller::Teller;
use std::io;
use std::io::Read;
use std::rt::{Env, Files};

// What is read: standard input or a named file. With one type for both, each program has its loop once.
#[derive(Drop)]
enum Source<I, F> {
    Stdin(I),
    File(F),
}

impl<I: Read, F: Read> Read for Source<I, F> {
    fn read(&mut self, buf: &mut [u8]) -> io::Result<usize> {
        match self {
            Source::Stdin(input) => input.read(buf),
            Source::File(file) => file.read(buf),
        }
    }
}

// Each of these answers whether standard output took what was played.
impl<R: Env + Files + Input + Print, E: Print> Host<'_, R, E> {
    pub fn play_file<T: Teller, const ROOM: usize>(
        &self,
        path: &[u8],
        headed: bool,
        images: Images,
    ) -> bool
        requires enough { T.room ≤ ROOM }
        requires few { ROOM ≤ 1048576 }
    {
        if headed {
            self.print_heading(path);
        }
        if !self.may_write(path, images) {
            return true;
        }
        match open_read(self.rt, path) {
            Ok(file) => {
                let mut source: Source<R::Reader, R::File> = Source::File(file);
                self.play_input::<T, ROOM>(&mut source, path, images)
            }
            Err(error) => {
                self.fail(path, error);
                true
            }
        }
    }

    pub fn play_stdin<T: Teller, const ROOM: usize>(&self, headed: bool, images: Images) -> bool
        requires enough { T.room ≤ ROOM }
        requires few { ROOM ≤ 1048576 }
    {
        let name = b"standard input";
        if headed {
            self.print_heading(name);
        }
        // Standard input has no name that a file could have.
        if !self.may_write(b"-", images) {
            return true;
        }
        let mut source: Source<R::Reader, R::File> = Source::Stdin(self.rt.reader());
        self.play_input::<T, ROOM>(&mut source, name, images)
    }

    // A read or a write that fails is told of. The image of the end is written only if the input was played to its end.
    fn play_input<T: Teller, const ROOM: usize>(
        &self,
        input: &mut impl Read,
        name: &[u8],
        images: Images,
    ) -> bool
        requires enough { T.room ≤ ROOM }
        requires few { ROOM ≤ 1048576 }
    {
        let Some(mut start) = self.start_of(images.read) else {
            return true;
        };
        let end = tell::<T, ROOM>(self.rt, &mut start, input);
        if let Some(error) = end.read_failure {
            self.fail(name, error);
        }
        if let Some(error) = end.write_failure {
            self.fail_output(error);
            return false;
        }
        if end.done
            && let Some(place) = images.written
        {
            self.save(start.service, place);
        }
        true
    }

    // Which input comes now, on standard error: standard output has only what is printed of the inputs.
    fn print_heading(&self, name: &[u8]) {
        self.put(b"==> ");
        self.put(name);
        self.put(b" <==\n");
    }
}
