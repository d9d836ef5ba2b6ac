// The settings line.
ghost use Rattle.std.specs.Prelude.{◌≡◌, [], drop};
ghost use Rattle.stepfile.specs.Grammar.{found};
ghost use Rattle.stepfile.specs.Setting.{begins_with_set, store_at, sizes_at, settled, setting_of};
ghost use Rattle.reader.specs.FirstLine.{is_set, first_setting};
ghost use Rattle.reader.specs.Offsets.{found_in};

use crate::found::Found;
use crate::line::no_step_at;
use crate::number::argument_at;
use sizes::{MAX_PLACES, Sizes};
use stepfile::{NoSizes, Setting};

// What the first line of an input sets, and the offset past it.
// Stays: an input without a line sets nothing, as any other line does; each caller asks `is_set` alone, and the definition
// `first_setting`, under the theorems on first lines, gives the offset 0 there.
#[derive(Clone, Copy)]
pub struct FirstSetting {
    pub setting: Setting,
    pub next: usize,
}

pub fn read_first_setting(input: &[u8]) -> FirstSetting
    ensures { result ≡ first_setting input.now }
{
    let Some(line) = no_step_at(input, 0) else {
        return FirstSetting {
            setting: Err(NoSizes::Missing),
            next: 0,
        };
    };
    FirstSetting {
        setting: read_setting(&input[..line.next - 1]),
        next: line.next,
    }
}

// Whether a line is a settings line, in range or not.
pub fn is_set(setting: Setting) -> bool
    ensures { result ≡ is_set setting }
{
    !matches!(setting, Err(NoSizes::Missing))
}

// What a whole line gives as settings.
pub fn read_setting(line: &[u8]) -> Setting
    ensures { result ≡ setting_of line.now }
{
    if begins_with_set(line) {
        sizes_from(line, 3)
    } else {
        Err(NoSizes::Missing)
    }
}

fn begins_with_set(line: &[u8]) -> bool
    ensures { result ≡ begins_with_set line.now }
{
    line.starts_with(b"SET")
}

// The three or four numbers, up to the end of the line.
fn sizes_from(s: &[u8], at: usize) -> Setting
    ensures { result ≡ settled (sizes_at (drop at s.now)) }
{
    let sizes = sizes_at(s, at).ok_or(NoSizes::Missing)?;
    if sizes.next < s.len() {
        return Err(NoSizes::Missing);
    }
    setting_of(sizes.value)
}

// The numbers, and the offset past them.
fn sizes_at(s: &[u8], at: usize) -> Option<Found<Sizes>>
    ensures { sizes_at (drop at s.now) ≡ found_in s.now result }
{
    let clients = argument_at(s, at)?;
    let files = argument_at(s, clients.next)?;
    let blocks = argument_at(s, files.next)?;
    let store = store_at(s, blocks.next)?;
    Some(Found {
        value: Sizes {
            clients: clients.value as usize,
            files: files.value as usize,
            blocks: blocks.value as usize,
            store: store.value as usize,
        },
        next: store.next,
    })
}

// The fourth number; where the line ends before it, the largest store.
fn store_at(s: &[u8], at: usize) -> Option<Found<u64>>
    ensures { store_at (drop at s.now) ≡ found_in s.now result }
{
    if s.len() <= at {
        return Some(Found {
            value: MAX_PLACES as u64,
            next: at,
        });
    }
    argument_at(s, at)
}

// The sizes, if each lies inside its range.
fn setting_of(sizes: Sizes) -> Setting
    ensures { result ≡ settled (found sizes []) }
{
    if sizes.are_permitted() {
        Ok(sizes)
    } else {
        Err(NoSizes::OutOfRange)
    }
}
