// The lent flags: who has reported, after them whether the server recovers, then who is under embargo, and last which
// blocks are used.
ghost use Rattle.std.specs.Prelude.{◌≡◌, length};
ghost use Rattle.service.specs.Lent.{lent_flags, recovering_held, reported_held, embargoed_held, used_held};

use sizes::{MAX_CLIENTS, MAX_PLACES};
use table::Recovery;

// Where the flag of the recovery stands.
pub const RECOVERING: usize = MAX_CLIENTS;

// Where the flags of the clients under embargo begin.
pub const EMBARGOED: usize = MAX_CLIENTS + 1;

// Where the flags of the used blocks begin.
pub const USED: usize = 2 * MAX_CLIENTS + 1;

pub const FLAGS: usize = USED + MAX_PLACES;

pub fn recovery_of(flags: &[bool; FLAGS]) -> Recovery
    requires { length flags.now ≡ lent_flags }
    ensures { (result.recovering ≡ recovering_held flags.now)
        × (result.reported ≡ reported_held flags.now)
        × (result.embargoed ≡ embargoed_held flags.now) }
{
    let mut reported = [false; MAX_CLIENTS];
    reported.copy_from_slice(&flags[..MAX_CLIENTS]);
    let mut embargoed = [false; MAX_CLIENTS];
    embargoed.copy_from_slice(&flags[EMBARGOED..USED]);
    Recovery {
        recovering: flags[RECOVERING],
        reported,
        embargoed,
    }
}

pub fn put_recovery(flags: &mut [bool; FLAGS], recovery: Recovery)
    requires { length flags.old ≡ lent_flags }
    ensures { (recovering_held flags.new ≡ recovery.recovering)
        × (reported_held flags.new ≡ recovery.reported)
        × (embargoed_held flags.new ≡ recovery.embargoed)
        × (used_held flags.new ≡ used_held flags.old)
        × (length flags.new ≡ lent_flags) }
{
    let reports = recovery.reported;
    let embargoed = recovery.embargoed;
    flags[..MAX_CLIENTS].copy_from_slice(&reports);
    flags[RECOVERING] = recovery.recovering;
    flags[EMBARGOED..USED].copy_from_slice(&embargoed);
}
