// A line that sets the sizes.
ghost use Rattle.std.specs.Prelude.{◌≤◌, ◌≡◌};
ghost use Rattle.service.specs.declared.service.Service.{Service};
ghost use Rattle.service.specs.Lent.{service_held};
ghost use Rattle.stepfile.specs.Line.{line_text};
ghost use Rattle.stepfile.specs.Played.{set_outcome};
ghost use Rattle.writer.specs.Buffer.{WroteIfRoom, line_room};

use protocol::{Refusal, Reply};
use service::HeldService;
use sizes::Sizes;
use stepfile::{NoSizes, Setting};
use words::SAID;
use writer::write_said;

// The sizes after it: those in range are taken, and the service is then a fresh one; otherwise it stays.
pub fn choose_sizes(sizes: Sizes, setting: Setting, service: &mut HeldService) -> Sizes
    ensures { service_held result service.new.table service.new.flags service.new.stores
        ≡ (set_outcome (service_held sizes service.old.table service.old.flags service.old.stores) setting).service }
{
    let Ok(chosen) = setting else {
        return sizes;
    };
    *service = HeldService::fresh();
    chosen
}

// The reply to it.
pub fn reply_to(setting: Setting) -> Reply
    ensures { (s : Service) → result ≡ (set_outcome s setting).reply }
{
    match setting {
        Ok(_) => Reply::Done,
        Err(NoSizes::OutOfRange) => Reply::from(Refusal::OutOfRange),
        Err(NoSizes::Missing) => Reply::from(Refusal::NoStep),
    }
}

// What says it: K, or N and one word.
// Stays: the two numbers, and no call of `say`, so that each call of the writer below knows what it writes.
const DONE: u64 = 75;

const REFUSED: u64 = 334;

// Writes its reply line at the start of out. What is said is known in each call, so that the compiler puts the writer
// into the loop over lines, where it is not.
pub fn write_setting(out: &mut [u8], number: u64, setting: Setting) -> usize
    ensures wrote_if_room { (s : Service) → WroteIfRoom line_room out.old 0
        (line_text number (set_outcome s setting).reply (set_outcome s setting).calls (set_outcome s setting).grants)
        out.new result }
    ensures upper_bound { result ≤ line_room }
{
    let Err(missing) = setting else {
        return write_said(out, 0, number, DONE, &[0; SAID]);
    };
    match missing {
        NoSizes::OutOfRange => write_said(
            out,
            0,
            number,
            REFUSED,
            &[Refusal::OutOfRange.number() as u64; SAID],
        ),
        NoSizes::Missing => write_said(
            out,
            0,
            number,
            REFUSED,
            &[Refusal::NoStep.number() as u64; SAID],
        ),
    }
}
