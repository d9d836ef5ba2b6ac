// Small files, read and written as a whole. What fails is told of.
ghost use Rattle.std.specs.Prelude.{◌≡◌, ◌+◌, ◌≤◌, length, take};

use crate::host::Host;
use input::{Content, read_to_end};
use std::fs::{File, OpenFile, OpenOptions};
use std::io;
use std::io::Write;
use std::rt::Files;

// EILSEQ: the system's number for bytes that are no text.
const NO_TEXT: i32 = 84;

// The name as a path, which is UTF-8.
pub fn path_of(name: &[u8]) -> io::Result<&str> {
    std::str::from_utf8(name).map_err(|_| io::Error::from_raw_os_error(NO_TEXT))
}

// Opens the file for reading.
pub fn open_read<R: Files>(rt: &R, name: &[u8]) -> io::Result<R::File> {
    File::open(rt, path_of(name)?)
}

// Opens the file for reading and writing, and leaves its bytes as they are.
pub fn open_update<R: Files>(rt: &R, name: &[u8]) -> io::Result<R::File> {
    OpenOptions::new()
        .read(true)
        .write(true)
        .open(rt, path_of(name)?)
}

impl<R: Files, E: Print> Host<'_, R, E> {
    // Reads the file to its end, or as far as the buffer goes. It has failed if it could not be opened, or not be read.
    pub fn read_file(&self, name: &[u8], buffer: &mut [u8]) -> Content
        ensures within { result.count ≤ length buffer.new }
        ensures prefix { result.count ≡ length (take result.count buffer.new) }
    {
        match open_read(self.rt, name) {
            Ok(mut file) => {
                let content = read_to_end(&mut file, buffer);
                if let Some(error) = content.failure {
                    self.fail(name, error);
                }
                content
            }
            Err(error) => {
                self.fail(name, error);
                Content {
                    count: 0,
                    failure: Some(error),
                }
            }
        }
    }

    // Puts the bytes into the file: all of them, or the file stays as it is. They go to a new file beside it, which then
    // takes its name. Answers whether they are there.
    pub fn replace_file(&self, bytes: &[u8], name: &[u8]) -> bool {
        let mut new_name = name_buffer();
        let count = name_beside(name, &mut new_name);
        self.write_new(bytes, &new_name[..count]) && self.take_name(&new_name[..count], name)
    }

    // Makes the file and writes the bytes. What an earlier run has left under this name goes; if the bytes cannot be
    // stored, the file goes again.
    fn write_new(&self, bytes: &[u8], name: &[u8]) -> bool {
        remove(self.rt, name);
        match create(self.rt, name) {
            Ok(mut file) => match store(&mut file, bytes) {
                Ok(()) => true,
                Err(error) => {
                    self.fail(name, error);
                    remove(self.rt, name);
                    false
                }
            },
            Err(error) => {
                self.fail(name, error);
                false
            }
        }
    }

    fn take_name(&self, new_name: &[u8], name: &[u8]) -> bool {
        match rename(self.rt, new_name, name) {
            Ok(()) => true,
            Err(error) => {
                self.fail(name, error);
                remove(self.rt, new_name);
                false
            }
        }
    }
}

// Makes a file that is not there yet, for writing.
fn create<R: Files>(rt: &R, name: &[u8]) -> io::Result<R::File> {
    OpenOptions::new()
        .write(true)
        .create_new(true)
        .open(rt, path_of(name)?)
}

// The file goes, if there is one.
fn remove(rt: &impl Files, name: &[u8]) {
    if let Ok(path) = path_of(name) {
        let _ = std::fs::remove_file(rt, path);
    }
}

// Writes the bytes, and waits until they are stored.
fn store(file: &mut (impl Write + OpenFile), bytes: &[u8]) -> io::Result<()> {
    file.write_all(bytes)?;
    file.sync_all()
}

fn rename(rt: &impl Files, from: &[u8], to: &[u8]) -> io::Result<()> {
    std::fs::rename(rt, path_of(from)?, path_of(to)?)
}

// A name has at most 4,096 bytes, and `.new` comes after it.
pub fn name_buffer() -> [u8; 4100] {
    [0; 4100]
}

// Puts the name and `.new` into the buffer, and answers their length. A name that does not fit gives none: cut short,
// it would be another file's.
pub fn name_beside(name: &[u8], buffer: &mut [u8]) -> usize
    ensures within { result ≤ length buffer.new }
    ensures prefix { result ≡ length (take result buffer.new) }
{
    let at = name.len();
    if buffer.len() < 4 || buffer.len() - 4 < at {
        return 0;
    }
    buffer[..at].copy_from_slice(name);
    buffer[at..at + 4].copy_from_slice(b".new");
    at + 4
}
