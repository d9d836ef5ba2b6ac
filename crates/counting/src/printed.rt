// The totals, written into a buffer: a line for each station in force, and one for all.
ghost use Rattle.std.specs.Prelude.{◌+◌, ◌≤◌, ◌<◌, ◌≡◌, length};
ghost use Rattle.sizes.specs.Sizes.{max_clients, in_force};
ghost use Rattle.stepfile.specs.Text.{decimal};
ghost use Rattle.writer.specs.Buffer.{Wrote, WroteIfRoom};
ghost use Rattle.trace.specs.Counted.{columns};
ghost use Rattle.trace.specs.Number.{total_at, at_most};
ghost use Rattle.counting.specs.Printed.{row_text, stations_text, sum_of, all_text, traffic_text, traffic_room};

use sizes::Sizes;
use trace::{COLUMNS, TOTALS};
use writer::{put_argument, put_byte};

// The room that the lines are given: more than they take.
pub const TRAFFIC_ROOM: usize = 2048;

// Writes the lines, for the stations in force, and answers the offset past them. Where the buffer has less than
// TRAFFIC_ROOM bytes from the offset on, writes nothing and answers the offset.
pub fn write_traffic(out: &mut [u8], at: usize, given: Sizes, totals: &[u64; TOTALS]) -> usize
    ensures wrote_if_room { WroteIfRoom traffic_room out.old at
        (traffic_text (in_force given).clients (total_at totals.now)) out.new result }
    ensures upper_bound { result ≤ at + traffic_room }
{
    if out.len() < TRAFFIC_ROOM {
        return at;
    }
    if out.len() - TRAFFIC_ROOM < at {
        return at;
    }
    let sizes = given.in_force();
    let all = put_stations(out, at, sizes.clients, totals);
    put_all(out, all, sizes.clients, totals)
}

// At most 170 bytes for each station.
fn put_stations(out: &mut [u8], at: usize, stations: usize, totals: &[u64; TOTALS]) -> usize
    requires stations_le_max_clients { stations ≤ max_clients }
    requires at_in_bounds { at + 1360 ≤ length out.old }
    ensures wrote { Wrote out.old at (stations_text stations (total_at totals.now)) out.new result }
    ensures upper_bound { result ≤ at + 1360 }
{
    let mut next = at;
    for station in 0..stations {
        next = put_station(out, next, station, totals);
    }
    next
}

fn put_station(out: &mut [u8], at: usize, station: usize, totals: &[u64; TOTALS]) -> usize
    requires station_lt_max_clients { station < max_clients }
    requires at_in_bounds { at + 170 ≤ length out.old }
    ensures wrote { Wrote out.old at
        (row_text (decimal station) (total_at totals.now station)) out.new result }
    ensures upper_bound { result ≤ at + 170 }
{
    let mut next = put_byte(out, at, (48 + station) as u8);
    for column in 0..COLUMNS {
        next = put_argument(out, next, totals[station * COLUMNS + column]);
    }
    put_byte(out, next, b'\n')
}

fn put_all(out: &mut [u8], at: usize, stations: usize, totals: &[u64; TOTALS]) -> usize
    requires stations_le_max_clients { stations ≤ max_clients }
    requires at_in_bounds { at + 172 ≤ length out.old }
    ensures wrote { Wrote out.old at (all_text stations (total_at totals.now)) out.new result }
    ensures upper_bound { result ≤ at + 172 }
{
    let second = put_byte(out, at, b'a');
    let third = put_byte(out, second, b'l');
    let mut next = put_byte(out, third, b'l');
    for column in 0..COLUMNS {
        next = put_argument(out, next, sum_of(stations, column, totals));
    }
    put_byte(out, next, b'\n')
}

// The sum of a column over the stations.
fn sum_of(stations: usize, column: usize, totals: &[u64; TOTALS]) -> u64
    requires stations_le_max_clients { stations ≤ max_clients }
    requires column_lt_columns { column < columns }
    ensures { result ≡ at_most (sum_of stations (λ i. total_at totals.now i column)) }
{
    let mut sum: u64 = 0;
    for station in 0..stations {
        sum = sum_at_most(sum, totals[station * COLUMNS + column]);
    }
    sum
}

// The sum, or the last total where it is more.
fn sum_at_most(a: u64, b: u64) -> u64
    ensures { result ≡ at_most (a + b) }
{
    a.saturating_add(b)
}
