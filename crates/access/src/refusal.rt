// The refusals of reads and writes: each function tests exactly its own, in the order in which they are tested.
ghost use Rattle.std.specs.Prelude.{◌≡◌, ℕ};
ghost use Rattle.decision.specs.Lists.{first_of};
ghost use Rattle.protocol.specs.Refused.{refusal_in};
ghost use Rattle.protocol.specs.Refusal.{read_tests, write_tests};

use protocol::{ClientFile, Refusal, refuse_if};
use sizes::Sizes;

// Stays: reads and writes each have the tests of the embargo and of the recovery in their chain: with a function of its own
// for the two, the proof of `write_refusal` did not close.
pub fn read_refusal(
    sizes: Sizes,
    embargoed: bool,
    recovering: bool,
    reported: bool,
    own: ClientFile,
    held: bool,
    client: usize,
    file: usize,
    block: usize,
) -> Result<(), Refusal>
    ensures { refusal_in result ≡ first_of (read_tests sizes embargoed recovering reported own held client file block) }
{
    let fetches = own.read_needs_server(held);
    refuse_if(sizes.clients <= client, Refusal::NoClient)?;
    refuse_if(sizes.files <= file, Refusal::NoFile)?;
    refuse_if(sizes.blocks <= block, Refusal::NoBlock)?;
    refuse_if(fetches & embargoed, Refusal::UnderEmbargo)?;
    refuse_if((reported | fetches) & recovering, Refusal::InRecovery)?;
    refuse_if(!own.opens.is_open(), Refusal::NotOpen)
}

pub fn write_refusal(
    sizes: Sizes,
    embargoed: bool,
    recovering: bool,
    reported: bool,
    own: ClientFile,
    takes: bool,
    full: bool,
    client: usize,
    file: usize,
    block: usize,
) -> Result<(), Refusal>
    ensures { (v : ℕ) → refusal_in result
        ≡ first_of (write_tests sizes embargoed recovering reported own takes full client file block v) }
{
    let sends = own.write_needs_server() | takes;
    refuse_if(sizes.clients <= client, Refusal::NoClient)?;
    refuse_if(sizes.files <= file, Refusal::NoFile)?;
    refuse_if(sizes.blocks <= block, Refusal::NoBlock)?;
    refuse_if(sends & embargoed, Refusal::UnderEmbargo)?;
    refuse_if((reported | sends) & recovering, Refusal::InRecovery)?;
    refuse_if(own.opens.writers == 0, Refusal::NotOpen)?;
    refuse_if(takes & full, Refusal::NoPlace)
}
