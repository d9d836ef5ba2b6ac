// One record, counted: on plain numbers.
ghost use Rattle.std.specs.Prelude.{◌<◌, ◌≡◌, get_or, set};
ghost use Rattle.trace.specs.Counted.{kind_number, outcome_number, totals_room, raised_if, counted_numbers, counted};

use crate::record::{TraceKind, TraceOutcome, TraceRecord};
use sizes::MAX_CLIENTS;

// Opens, closes, fetches, writes sent, calls, refusals, hits and accepted reads.
pub const COLUMNS: usize = 8;

pub const TOTALS: usize = COLUMNS * MAX_CLIENTS;

// Counts a record in the totals of its station, if the station is one of those in force.
pub fn add_record(stations: usize, one: TraceRecord, totals: &mut [u64; TOTALS])
    ensures { totals.new ≡ counted stations one totals.old }
{
    count(
        stations,
        usize::from(one.station),
        kind_number(one.kind),
        outcome_number(one.outcome),
        totals,
    )
}

// The same of its numbers.
// Stays: plain numbers, as the form of a trace is asked for (docs/DECISIONS.md, Forms).
pub fn count(stations: usize, station: usize, kind: u64, outcome: u64, totals: &mut [u64; TOTALS])
    ensures { totals.new
        ≡ counted_numbers stations station kind outcome totals.old }
{
    if !((station < stations) & (station < MAX_CLIENTS)) {
        return;
    }
    let at = station * COLUMNS;
    let fetched = (kind == 2) & (outcome == 2);
    let hit = (kind == 2) & (outcome == 1);
    raise_if(totals, at, (kind == 0) & (outcome == 0));
    raise_if(totals, at + 1, (kind == 1) & (outcome == 0));
    raise_if(totals, at + 2, fetched);
    raise_if(totals, at + 3, kind == 3);
    raise_if(totals, at + 4, kind == 4);
    raise_if(totals, at + 5, outcome == 3);
    raise_if(totals, at + 6, hit);
    raise_if(totals, at + 7, fetched | hit);
}

// The last total stays.
fn raise_if(totals: &mut [u64; TOTALS], at: usize, counts: bool)
    requires { at < totals_room }
    ensures { totals.new
        ≡ set totals.old at (raised_if counts (get_or totals.old at 0)) }
{
    if counts {
        totals[at] = totals[at].saturating_add(1);
    }
}

fn kind_number(kind: TraceKind) -> u64
    ensures { result ≡ kind_number kind }
{
    kind as u64
}

fn outcome_number(outcome: TraceOutcome) -> u64
    ensures { result ≡ outcome_number outcome }
{
    outcome as u64
}
