// The refusals of a report and of the end of a recovery: each function tests exactly its own, in the order
// in which they are tested.
ghost use Rattle.std.specs.Prelude.{◌≡◌, false, ◌≤◌};
ghost use Rattle.sizes.specs.Sizes.{max_clients, Permitted};
ghost use Rattle.decision.specs.Lists.{first_of};
ghost use Rattle.protocol.specs.Refused.{refusal_in};
ghost use Rattle.table.specs.TableStep.{missing, report_tests, end_tests};

use decision::count_below;
use protocol::{Refusal, refuse_if};
use sizes::{MAX_CLIENTS, Sizes};

// The tests of a report that do not look at the table, as flags of the client and the server.
pub fn report_refusal(
    sizes: Sizes,
    embargoed: bool,
    recovering: bool,
    reported: bool,
    client: usize,
) -> Result<(), Refusal>
    ensures { refusal_in result ≡ first_of (report_tests sizes embargoed recovering reported false client) }
{
    refuse_if(sizes.clients <= client, Refusal::NoClient)?;
    refuse_if(embargoed, Refusal::UnderEmbargo)?;
    refuse_if(!recovering, Refusal::NotInRecovery)?;
    refuse_if(reported, Refusal::Reported)
}

pub fn end_refusal(
    sizes: Sizes,
    recovering: bool,
    reported: [bool; MAX_CLIENTS],
    embargoed: [bool; MAX_CLIENTS],
) -> Result<(), Refusal>
    requires { Permitted sizes }
    ensures { refusal_in result ≡ first_of (end_tests sizes recovering reported embargoed) }
{
    refuse_if(!recovering, Refusal::NotInRecovery)?;
    let left = count_missing(reported, embargoed, sizes.clients);
    refuse_if(0 < left, Refusal::ReportMissing)
}

// How many of the clients the server has still to hear.
fn count_missing(
    reported: [bool; MAX_CLIENTS],
    embargoed: [bool; MAX_CLIENTS],
    clients: usize,
) -> usize
    requires { clients ≤ max_clients }
    ensures { result ≡ missing clients reported embargoed }
{
    count_below(clients, |i| !(reported[i] | embargoed[i]))
}
