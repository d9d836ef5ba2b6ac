// The lines of a buffer, played.
ghost use Rattle.std.specs.Prelude.{◌≡◌, length};
ghost use Rattle.words.specs.Said.{said_room};
ghost use Rattle.service.specs.Lent.{Stepped};
ghost use Rattle.playing.specs.Lines.{Plays, Begins};

use crate::setting::{choose_sizes, write_setting};
use reader::{is_set, read_at, read_first_setting};
use service::HeldService;
use sizes::Sizes;
use stepfile::Line;
use telling::can_tell;
use words::SAID;
use writer::{LINE_ROOM, write_said};

// How far a buffer was played.
#[derive(Clone, Copy)]
pub struct Progress {
    pub sizes: Sizes,
    // The number of the next line.
    pub number: u64,
    // The bytes of the input that were played, and those of the output that were written.
    pub used: usize,
    pub written: usize,
}

// Plays the whole lines of the input, the first of them numbered so, and writes their reply lines from the start of
// out on, as long as another line can be told. If the sizes are settable, line 1 may choose them.
pub fn play_lines(
    settable: bool,
    sizes: Sizes,
    first: u64,
    input: &[u8],
    out: &mut [u8],
    service: &mut HeldService,
) -> Progress
    ensures { Plays settable sizes first input.now out.old service.old.table
        service.old.flags
        service.old.stores result
        out.new service.new.table service.new.flags
        service.new.stores }
{
    let begun = play_first(settable, sizes, first, input, out, service);
    let given = begun.sizes;
    let mut words = [0u64; SAID];
    let mut number = begun.number;
    let mut used = begun.used;
    let mut to = begun.written;
    // Stays: no index is counted; the loop ends where the next line cannot be told or is not whole.
    while can_tell(LINE_ROOM, out.len(), to, number) {
        let Some(line) = read_at(input, used) else {
            break;
        };
        let told = number;
        used = line.next;
        number += 1;
        let said = take_line(given, line, service, &mut words);
        to = write_said(out, to, told, said, &words);
    }
    Progress {
        sizes: given,
        number,
        used,
        written: to,
    }
}

// Takes the step of a line, or says that it gives none.
fn take_line(given: Sizes, line: Line, service: &mut HeldService, words: &mut [u64; SAID]) -> u64
    requires words_len { length words.old ≡ said_room }
    ensures { Stepped given line.step service.old.table service.old.flags service.old.stores words.old
        service.new.table service.new.flags service.new.stores words.new result }
{
    service.take_step(given, line.step, words)
}

// Plays the line that chooses the sizes, if the input begins with one: the sizes are then those of all other lines.
fn play_first(
    settable: bool,
    sizes: Sizes,
    first: u64,
    input: &[u8],
    out: &mut [u8],
    service: &mut HeldService,
) -> Progress
    ensures { Begins settable sizes first input.now out.old service.old.table
        service.old.flags
        service.old.stores result
        out.new service.new.table service.new.flags
        service.new.stores }
{
    let line = read_first_setting(input);
    let setting = line.setting;
    let chooses = settable & (first == 1) & is_set(setting);
    if !(chooses & can_tell(LINE_ROOM, out.len(), 0, first)) {
        return Progress {
            sizes,
            number: first,
            used: 0,
            written: 0,
        };
    }
    let chosen = choose_sizes(sizes, setting, service);
    Progress {
        sizes: chosen,
        number: first + 1,
        used: line.next,
        written: write_setting(out, first, setting),
    }
}
