// The refusals of the steps on a file: each function tests exactly its own, in the order in which they are tested.
ghost use Rattle.std.specs.Prelude.{◌≡◌};
ghost use Rattle.decision.specs.Lists.{first_of};
ghost use Rattle.protocol.specs.Refused.{refusal_in};
ghost use Rattle.protocol.specs.Refusal.{open_tests, close_tests, flush_tests, answer_tests};

use decision::asks_nothing;
use protocol::{ClientFile, Entry, Refusal, refuse_if};
use records::Mode;
use sizes::Sizes;

pub fn open_refusal(
    sizes: Sizes,
    embargoed: bool,
    recovering: bool,
    entry: Entry,
    own: ClientFile,
    mode: Mode,
    client: usize,
    file: usize,
) -> Result<(), Refusal>
    ensures { refusal_in result ≡ first_of (open_tests sizes embargoed recovering entry own mode client file) }
{
    refuse_if(sizes.clients <= client, Refusal::NoClient)?;
    refuse_if(sizes.files <= file, Refusal::NoFile)?;
    refuse_if(embargoed, Refusal::UnderEmbargo)?;
    refuse_if(recovering, Refusal::InRecovery)?;
    refuse_if(entry.waits(sizes.clients), Refusal::OpenWaits)?;
    refuse_if(own.opens.count(mode) == 255, Refusal::CountFull)?;
    refuse_if(
        mode.is_write() & entry.version.is_last(),
        Refusal::VersionSpent,
    )
}

// A close needs of the entry only who waits.
pub fn close_refusal(
    sizes: Sizes,
    embargoed: bool,
    recovering: bool,
    waiter: u8,
    own: ClientFile,
    mode: Mode,
    client: usize,
    file: usize,
) -> Result<(), Refusal>
    ensures { (e : Entry) → e.waiter ≡ waiter
        → refusal_in result ≡ first_of (close_tests sizes embargoed recovering e own mode client file) }
{
    refuse_if(sizes.clients <= client, Refusal::NoClient)?;
    refuse_if(sizes.files <= file, Refusal::NoFile)?;
    refuse_if(embargoed, Refusal::UnderEmbargo)?;
    refuse_if(recovering, Refusal::InRecovery)?;
    refuse_if((waiter as usize) < sizes.clients, Refusal::OpenWaits)?;
    refuse_if(own.opens.count(mode) == 0, Refusal::NotOpen)
}

pub fn flush_refusal(
    sizes: Sizes,
    embargoed: bool,
    recovering: bool,
    dirty: bool,
    client: usize,
    file: usize,
    block: usize,
) -> Result<(), Refusal>
    ensures { refusal_in result ≡ first_of (flush_tests sizes embargoed recovering dirty client file block) }
{
    refuse_if(sizes.clients <= client, Refusal::NoClient)?;
    refuse_if(sizes.files <= file, Refusal::NoFile)?;
    refuse_if(sizes.blocks <= block, Refusal::NoBlock)?;
    refuse_if(embargoed, Refusal::UnderEmbargo)?;
    refuse_if(recovering, Refusal::InRecovery)?;
    refuse_if(!dirty, Refusal::NotDirty)
}

pub fn answer_refusal(
    sizes: Sizes,
    embargoed: bool,
    recovering: bool,
    entry: Entry,
    client: usize,
    file: usize,
) -> Result<(), Refusal>
    ensures { refusal_in result ≡ first_of (answer_tests sizes embargoed recovering entry client file) }
{
    refuse_if(sizes.clients <= client, Refusal::NoClient)?;
    refuse_if(sizes.files <= file, Refusal::NoFile)?;
    refuse_if(embargoed, Refusal::UnderEmbargo)?;
    refuse_if(recovering, Refusal::InRecovery)?;
    refuse_if(
        asks_nothing(entry.call_to(sizes.clients, client)),
        Refusal::NoCall,
    )
}
