// The lines of a buffer, counted.
ghost use Rattle.std.specs.Prelude.{◌≡◌};
ghost use Rattle.trace.specs.Records.{itself_found};
ghost use Rattle.counting.specs.Lines.{CountsLines, Begins};

use crate::counted_service::CountedService;
use playing::{Progress, choose_sizes};
use protocol::Step;
use reader::{is_set, read_at, read_first_setting};
use service::HeldService;
use sizes::Sizes;
use telling::can_tell;
use trace::{TOTALS, count_trace, serves_itself, trace_of};
use words::SAID;

// Takes the steps of the whole lines of the input, the first of them numbered so, and lends each line's records as a trace,
// which is counted. If the sizes are settable, line 1 may choose them.
pub fn count_lines(
    settable: bool,
    sizes: Sizes,
    first: u64,
    input: &[u8],
    counted: &mut CountedService,
) -> Progress
    ensures { CountsLines settable sizes first input.now counted.old.service.table counted.old.service.flags
        counted.old.service.stores
        counted.old.totals result counted.new.service.table counted.new.service.flags
        counted.new.service.stores
        counted.new.totals }
{
    let begun = count_first(settable, sizes, first, input, &mut counted.service);
    let given = begun.sizes;
    let force = given.in_force();
    let stations = force.clients;
    let mut words = [0u64; SAID];
    let mut number = begun.number;
    let mut used = begun.used;
    // Stays: no index is counted, as in crates/playing/src/lines.rt.
    while can_tell(0, 0, 0, number) {
        let Some(line) = read_at(input, used) else {
            break;
        };
        used = line.next;
        number += 1;
        let itself = is_served_alone(line.step, &counted.service);
        let said = counted.service.take_step(given, line.step, &mut words);
        let trace = trace_of(stations, line.step, itself, said, &words);
        count_trace(stations, trace, &mut counted.totals);
    }
    Progress {
        sizes: given,
        number,
        used,
        written: 0,
    }
}

// Takes the line that chooses the sizes, if the input begins with one: the sizes are then those of all other lines.
fn count_first(
    settable: bool,
    sizes: Sizes,
    first: u64,
    input: &[u8],
    service: &mut HeldService,
) -> Progress
    ensures { Begins settable sizes first input.now service.old.table service.old.flags
        service.old.stores result
        service.new.table service.new.flags
        service.new.stores }
{
    let line = read_first_setting(input);
    let setting = line.setting;
    let chooses = settable & (first == 1) & is_set(setting);
    if !(chooses & can_tell(0, 0, 0, first)) {
        return Progress {
            sizes,
            number: first,
            used: 0,
            written: 0,
        };
    }
    let chosen = choose_sizes(sizes, setting, service);
    Progress {
        sizes: chosen,
        number: first + 1,
        used: line.next,
        written: 0,
    }
}

// Whether a client serves the step itself, from what it holds.
fn is_served_alone(step: Option<Step>, service: &HeldService) -> bool
    ensures { result ≡ itself_found step service.now.table service.now.stores.held }
{
    serves_itself(step, &service.table, &service.stores.held)
}
