// The permission to cache that a grant gives.
ghost use Rattle.std.specs.Prelude.{◌≡◌, ◌≤◌};
ghost use Rattle.sizes.specs.Sizes.{max_clients};
ghost use Rattle.decision.specs.State.{record_in};
ghost use Rattle.decision.specs.Permission.{permission_at_grant};

use crate::state::{Property, has, one_if, record_of, tallies_of};
use records::{ClientRecord, Mode};
use sizes::MAX_CLIENTS;

pub fn permission_at_grant(
    records: [ClientRecord; MAX_CLIENTS],
    clients: usize,
    opener: usize,
    mode: Mode,
) -> bool
    requires { clients ≤ max_clients }
    ensures { result ≡ permission_at_grant clients (record_in records) opener mode }
{
    let own = record_of(records, opener);
    if own.keeps_permission(mode) {
        return own.caching;
    }
    let counted = tallies_of(records, clients);
    let among = opener < clients;
    let written = one_if(among & has(own, Property::Writing)) < counted.writing;
    let shared = mode.is_write() & (one_if(among & has(own, Property::Open)) < counted.open);
    let uncached = 0 < counted.uncached;
    !(written | shared | uncached)
}
