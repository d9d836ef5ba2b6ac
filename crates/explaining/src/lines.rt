// The lines of a buffer, explained.
ghost use Rattle.std.specs.Prelude.{ℕ, ◌≡◌, List, Some, length};
ghost use Rattle.sizes.specs.Sizes.{in_force};
ghost use Rattle.words.specs.Rows.{table_words};
ghost use Rattle.words.specs.Said.{said_room};
ghost use Rattle.ledger.specs.declared.ledger.Ledger.{Ledger};
ghost use Rattle.service.specs.Lent.{lent_flags};
ghost use Rattle.sentences.specs.Scene.{kept_before};
ghost use Rattle.explaining.specs.Lines.{Explains, Begins, TellsLine, state_held};

use crate::noted_service::NotedService;
use crate::tell::{look, tell_no_step, tell_setting, tell_step};
use ledger::REFUSAL_NUMBERS;
use playing::Progress;
use protocol::{Numbers, Step, asked};
use reader::{is_set, read_at, read_first_setting};
use sentences::{EXPLAINED_ROOM, keep_before};
use service::HeldService;
use sizes::Sizes;
use telling::can_tell;
use words::{SAID, WORDS};

// Explains the whole lines of the input, the first of them numbered so, from the start of out on, as long as another
// line can be told. If the session began with the fresh service, line 1 may choose the sizes.
pub fn explain_lines(
    fresh: bool,
    sizes: Sizes,
    first: u64,
    input: &[u8],
    out: &mut [u8],
    noted: &mut NotedService,
) -> Progress
    ensures { Explains fresh sizes first input.now out.old noted.old.service.table
        noted.old.service.flags
        noted.old.service.stores
        noted.old.ledger
        noted.old.refusals result out.new noted.new.service.table noted.new.service.flags
        noted.new.service.stores
        noted.new.ledger
        noted.new.refusals }
{
    let begun = explain_first(
        fresh,
        sizes,
        first,
        input,
        out,
        &mut noted.service,
        &mut noted.refusals,
    );
    let given = begun.sizes;
    let force = given.in_force();
    let mut words = [0u64; SAID];
    let mut before = [0u64; WORDS];
    let mut number = begun.number;
    let mut used = begun.used;
    let mut to = begun.written;
    // Stays: no index is counted, as in crates/playing/src/lines.rt.
    while can_tell(EXPLAINED_ROOM, out.len(), to, number) {
        let Some(line) = read_at(input, used) else {
            break;
        };
        let told = number;
        used = line.next;
        number += 1;
        let Some(step) = line.step else {
            to = tell_no_step(out, to, told, &mut words, &mut noted.refusals);
            continue;
        };
        to = explain_line(
            out,
            to,
            told,
            fresh,
            given,
            force,
            step,
            &mut words,
            &mut before,
            noted,
        );
    }
    Progress {
        sizes: given,
        number,
        used,
        written: to,
    }
}

// Takes the step of a line, and explains it. The sizes are those that the session has, and those in force.
fn explain_line(
    out: &mut [u8],
    at: usize,
    line: u64,
    fresh: bool,
    given: Sizes,
    force: Sizes,
    step: Step,
    words: &mut [u64; SAID],
    before: &mut [u64; WORDS],
    noted: &mut NotedService,
) -> usize
    requires force_value { force ≡ in_force given }
    requires words_len { length words.old ≡ said_room }
    requires before_len { length before.old ≡ table_words }
    ensures tells_line { (text : List ℕ) → TellsLine fresh
        (state_held given noted.old.service.table noted.old.service.flags
        noted.old.service.stores
        noted.old.ledger noted.old.refusals)
        line text (Some step) out.old at
        (state_held given noted.new.service.table noted.new.service.flags
        noted.new.service.stores
        noted.new.ledger noted.new.refusals)
        out.new result }
    ensures words_len_unchanged { length words.new ≡ length words.old }
    ensures before_len_unchanged { length before.new ≡ length before.old }
{
    let named = asked(step);
    keep_in(&noted.service, named, before);
    let came = noted.service.flags;
    let seen = look(named, before, &noted.service.stores, &noted.ledger);
    let said = noted.service.take_step(given, Some(step), words);
    tell_step(
        out,
        at,
        line,
        fresh,
        force,
        step,
        said,
        words,
        before,
        &came,
        seen,
        &noted.service,
        &mut noted.ledger,
        &mut noted.refusals,
    )
}

// Keeps what a sentence looks at of the service's table before the step that has these numbers. Its clauses also give the
// lengths of its table and flags.
fn keep_in(service: &HeldService, named: Numbers, before: &mut [u64; WORDS])
    requires { length before.old ≡ table_words }
    ensures kept { before.new ≡ kept_before named.kind named.file service.now.table before.old }
    ensures table_len { length service.now.table ≡ table_words }
    ensures flags_len { length service.now.flags ≡ lent_flags }
{
    keep_before(&service.table, named.kind, named.file, before);
}

// Explains the line that chooses the sizes, if the input begins with one: the sizes are then those of all other lines.
fn explain_first(
    fresh: bool,
    sizes: Sizes,
    first: u64,
    input: &[u8],
    out: &mut [u8],
    service: &mut HeldService,
    refusals: &mut [u64; REFUSAL_NUMBERS],
) -> Progress
    ensures { (l : Ledger) → Begins fresh sizes first input.now out.old
        service.old.table service.old.flags
        service.old.stores l
        refusals.old result out.new service.new.table service.new.flags
        service.new.stores
        refusals.new }
{
    let line = read_first_setting(input);
    let setting = line.setting;
    let chooses = fresh & (first == 1) & is_set(setting);
    if !(chooses & can_tell(EXPLAINED_ROOM, out.len(), 0, first)) {
        return Progress {
            sizes,
            number: first,
            used: 0,
            written: 0,
        };
    }
    let set = tell_setting(out, 0, first, sizes, setting, service, refusals);
    let after = set.sizes;
    Progress {
        sizes: after,
        number: first + 1,
        used: line.next,
        written: set.to,
    }
}
