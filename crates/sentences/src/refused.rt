// What is said of a refusal, but that of a report that clashes.
ghost use Rattle.std.specs.Prelude.{◌+◌, ◌≤◌, ◌≡◌, length};
ghost use Rattle.sizes.specs.Sizes.{Permitted};
ghost use Rattle.service.specs.Lent.{lent_flags, used_held};
ghost use Rattle.writer.specs.Buffer.{Wrote};
ghost use Rattle.sentences.specs.Explained.{refused_text};

use phrases::{put_no_place, put_refusal};
use protocol::{Entry, Refusal, Step, asked};
use service::{FLAGS, held_used};
use sizes::{MAX_CELLS, MAX_CLIENTS, Sizes};

// By its number; only a write for which no place is free looks at the store.
pub fn put_refused(
    out: &mut [u8],
    at: usize,
    sizes: Sizes,
    flags: &[bool; FLAGS],
    dirty: &[bool; MAX_CELLS],
    reported: [bool; MAX_CLIENTS],
    embargoed: [bool; MAX_CLIENTS],
    entry: Entry,
    since: u64,
    embargo: u64,
    step: Step,
    number: u8,
) -> usize
    requires permitted { Permitted sizes }
    requires at_in_bounds { at + 354 ≤ length out.old }
    requires flags_len { length flags.now ≡ lent_flags }
    ensures wrote { Wrote out.old at
        (refused_text sizes (used_held flags.now) dirty.now reported embargoed entry since embargo
        step number)
        out.new result }
    ensures upper_bound { result ≤ at + 354 }
{
    if number == Refusal::NoPlace.number() {
        let named = asked(step);
        let used = held_used(flags);
        return put_no_place(
            out,
            at,
            sizes,
            &used,
            embargoed,
            dirty,
            named.file,
            named.block,
        );
    }
    put_refusal(
        out, at, sizes, reported, embargoed, entry, since, embargo, step, number,
    )
}
