// What `--help` and `--version` print.
use crate::host::Host;
use options::Program;
use std::io;
use std::io::{Cursor, Write};

impl<R: Print, E: Print> Host<'_, R, E> {
    pub fn print_version(&self) {
        if let Err(error) = write_version(self.rt, self.program) {
            self.fail_output(error);
        }
    }

    pub fn print_help(&self) {
        if let Err(error) = write_help(self.rt, self.program) {
            self.fail_output(error);
        }
    }
}

fn write_version(rt: &impl Print, program: Program) -> io::Result<()> {
    rt.write_all(program.name())?;
    rt.write_all(b" 0.1.0\n")
}

// In one write: where the reader takes the first line and goes, no later write can fail.
fn write_help(rt: &impl Print, program: Program) -> io::Result<()> {
    let mut text = Cursor::new([0u8; 8192]);
    put_help(&mut text, program)?;
    let bytes: &[u8] = text.get_ref();
    let end = bytes.len().min(text.position() as usize);
    rt.write_all(&bytes[..end])
}

// Each of these puts a part of the help into the text, which has room for the whole.
fn put_help(text: &mut impl Write, program: Program) -> io::Result<()> {
    put_purpose(text, program)?;
    put_options(text)?;
    put_lines(text, program)?;
    put_end(text, program)
}

fn put_purpose(text: &mut impl Write, program: Program) -> io::Result<()> {
    text.write_all(match program {
        Program::Play => {
            b"Usage: play [--help] [--version] [--read-image IMAGE] [--write-image IMAGE]\n\
              \x20           [--] [FILE..]\n\
              \n\
              Plays step files. Each FILE is played on a fresh file service: every line gets a\n\
              reply, and a summary of the service's files comes last. With no FILE, or where\n\
              FILE is -, standard input is played.\n\
              \n"
        }
        Program::Explain => {
            b"Usage: explain [--help] [--version] [--read-image IMAGE] [--write-image IMAGE]\n\
              \x20              [--] [FILE..]\n\
              \n\
              Plays step files, and says of every line what happened. Each FILE is played on a\n\
              fresh file service: every line gets its reply, as play prints it, and after four\n\
              spaces a sentence; a picture of the service comes last. With no FILE, or where\n\
              FILE is -, standard input is played.\n\
              \n"
        }
        Program::Traffic => {
            b"Usage: traffic [--help] [--version] [--read-image IMAGE] [--write-image IMAGE]\n\
          \x20              [--] [FILE..]\n\
          \n\
          Counts step files. Each FILE is played on a fresh file service: no line gets a\n\
          reply, and a table comes last, with a line for each station in force, ascending,\n\
          and one for `all`: the name and eight numbers, one space between. With no FILE,\n\
          or where FILE is -, standard input is played.\n\
          \n"
        }
    })
}

fn put_options(text: &mut impl Write) -> io::Result<()> {
    text.write_all(
        b"\x20 --help                 print this text, and play nothing\n\
          \x20 --version              print the version, and play nothing\n\
          \x20 --read-image IMAGE     begin with the server whose image this file has, in\n\
          \x20                        recovery, and with no first line SET\n\
          \x20 --write-image IMAGE    at the end, put the image of the server into this file\n\
          \x20 --                     end the options: what follows are names of files\n\
          With an image, at most one FILE is played.\n\
          \n",
    )
}

fn put_lines(text: &mut impl Write, program: Program) -> io::Result<()> {
    put_steps(text)?;
    put_replies(text, program)
}

fn put_steps(text: &mut impl Write) -> io::Result<()> {
    text.write_all(
        b"Steps, one to a line. C is a client, F a file, B a block, V a value:\n\
          \x20 OR C F      open for reading        OW C F      open for writing\n\
          \x20 CR C F      close for reading       CW C F      close for writing\n\
          \x20 RD C F B    read a block            WR C F B V  write a block\n\
          \x20 FL C F B    flush a dirty block     AN C F      answer a callback\n\
          \x20 XX          crash the server        RP C        report after a crash\n\
          \x20 EN          end the recovery        BT C        restart the client\n\
          \x20 EM C F      put under embargo       LF C        lift the embargo\n\
          As the first line, for other sizes than 8 clients, 32 files of 4 blocks, and 512\n\
          places in the store:\n\
          \x20 SET N F B [P]   N clients, F files, B blocks in each, P places in the store:\n\
          \x20                 at most 8, 64, 8 and 512\n\
          \n",
    )
}

// `traffic` prints none.
fn put_replies(text: &mut impl Write, program: Program) -> io::Result<()> {
    if !matches!(program, Program::Traffic) {
        return text.write_all(
            b"Replies, each after the number of its line:\n\
              \x20 G LATEST PREVIOUS PERMISSION         the open is granted\n\
              \x20 W C:KIND ..                          the open waits for these callbacks:\n\
              \x20                                      1 write-back, 2 invalidate, 3 both\n\
              \x20 A N [GRANT ..]                       answered, N blocks sent\n\
              \x20 V VALUE                              the value read\n\
              \x20 K [GRANT ..]                         done\n\
              \x20 N NUMBER                             refused, and why\n\
              A GRANT is C LATEST PREVIOUS PERMISSION: the open of C that waited is granted.\n\
              \n",
        );
    }
    Ok(())
}

fn put_end(text: &mut impl Write, program: Program) -> io::Result<()> {
    text.write_all(match program {
        Program::Play => {
            b"Summary: `files` and a count, then for each file F STATE VERSION LAST-WRITER.\n\
              \n\
              Errors go to standard error. docs/STEPFILE.md is the manual.\n"
        }
        Program::Explain => {
            b"A sentence calls a client a station. Picture: whether the server runs, the files\n\
              with the stations that have them open or hold blocks, and the refusals counted.\n\
              \n\
              Errors go to standard error. docs/STEPFILE.md is the manual, and docs/EXPLAIN.md\n\
              has the sentences.\n"
        }
        Program::Traffic => {
            b"A station is a client. The numbers of a line, in this order:\n\
          \x20 1 opens granted                     5 calls received\n\
          \x20 2 closes done                       6 steps refused\n\
          \x20 3 blocks fetched from the server    7 reads from the copy (hits)\n\
          \x20 4 blocks sent to the server         8 accepted reads (hits and fetches)\n\
          A step that names no station in force is not counted.\n\
          \n\
          Errors go to standard error. docs/STEPFILE.md is the manual, and docs/TRAFFIC.md\n\
          has the columns, with an example.\n"
        }
    })
}
