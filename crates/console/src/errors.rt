// How an error is told: a line on standard error, `play: NAME: REASON`, with the program's own name. Where standard error
// takes no line, none is told.
use crate::host::Host;
use std::io;
use std::io::{Cursor, Write};

impl<R, E: Print> Host<'_, R, E> {
    // A call on the named input or output has failed. The reason is that of the error, in the system's words.
    pub fn fail(&self, name: &[u8], error: io::Error) {
        self.begin();
        self.put(name);
        self.put(b": ");
        self.put_reason(error);
        self.put(b"\n");
    }

    pub fn fail_output(&self, error: io::Error) {
        self.fail(b"standard output", error);
    }

    pub fn refuse_option(&self, text: &[u8], reason: &[u8]) {
        self.begin();
        self.put(text);
        self.put(b": ");
        self.put(reason);
        self.put(b" (try ");
        self.put(self.program.name());
        self.put(b" --help)\n");
    }

    // The same of an option for an image.
    pub fn refuse_image_option(&self, writing: bool, reason: &[u8]) {
        if writing {
            self.refuse_option(b"--write-image", reason);
        } else {
            self.refuse_option(b"--read-image", reason);
        }
    }

    // An argument that does not fit its buffer is named by its place: its first bytes would be another name.
    pub fn refuse_long(&self, place: usize) {
        self.begin();
        self.put(b"argument ");
        let _ = self.errors.print(place);
        self.put(b": longer than 4096 bytes\n");
    }

    // The image in the named file, or for it, is refused with this number.
    // Stays: the number, which a reply has in place of a `Refusal` (crates/protocol/src/reply.rt).
    pub fn refuse_image(&self, name: &[u8], number: u8) {
        self.begin();
        self.put(name);
        self.put(b": image refused with ");
        let _ = self.errors.print(number);
        self.put(b"\n");
    }

    // The named file is left as it is, for this reason.
    pub fn leave(&self, name: &[u8], reason: &[u8]) {
        self.begin();
        self.put(name);
        self.put(b": ");
        self.put(reason);
        self.put(b", left as it is\n");
    }

    // Writes the bytes to standard error, if it takes them.
    pub fn put(&self, bytes: &[u8]) {
        let _ = self.errors.write_all(bytes);
    }

    fn begin(&self) {
        self.put(self.program.name());
        self.put(b": ");
    }

    // The error's text without what stands in brackets after the system's words, its number.
    fn put_reason(&self, error: io::Error) {
        let mut text = Cursor::new([0u8; 256]);
        let _ = write!(text, "{error}");
        let bytes: &[u8] = text.get_ref();
        let end = bytes.len().min(text.position() as usize);
        self.put(words_of(&bytes[..end]));
    }
}

fn words_of(text: &[u8]) -> &[u8] {
    let Ok(text) = std::str::from_utf8(text) else {
        return text;
    };
    match text.split_once(" (os error ") {
        Some((words, _)) => words.as_bytes(),
        None => text.as_bytes(),
    }
}
