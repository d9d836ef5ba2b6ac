// The copy check of a client that is granted permission.
ghost use Rattle.std.specs.Prelude.{◌≡◌};
ghost use Rattle.records.specs.Record.{allowed_lag};
ghost use Rattle.records.specs.Version.{lags_at_most};
ghost use Rattle.protocol.specs.Copy.{keeps_copy};

use records::{Mode, Version};

// Whether a copy with this label is kept by an open in the mode, at the latest version: as document 01 says it, and as
// Wish 3 does, by one subtraction for both modes. proofs/CopyCheck.antt shows that the two are one test.
pub fn keeps_copy(mode: Mode, label: Version, latest: Version) -> bool
    ensures value { result ≡ keeps_copy mode label latest }
    ensures value_2 { result ≡ lags_at_most (allowed_lag mode) label latest }
{
    label.lags_at_most(mode.allowed_lag(), latest)
}
