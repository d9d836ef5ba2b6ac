// The steps on the whole table. Each changes the state of the recovery, and tells what the entries in force do then.
ghost use Rattle.std.specs.Prelude.{◌≡◌, Bool, false, ◌≤◌};
ghost use Rattle.sizes.specs.Sizes.{max_clients, Permitted};
ghost use Rattle.decision.specs.Lists.{filled};
ghost use Rattle.table.specs.Recovery.{kept as kept_outcome, recovery_step};

use crate::refusal::end_refusal;
use protocol::{Reply, Step};
use sizes::{MAX_CLIENTS, Sizes};

// What a step on the whole table does to the entries in force.
#[derive(Clone, Copy)]
pub enum Sweep {
    Stay,
    // Of all that they hold only the versions survive.
    Crash,
    // Each takes the client's side of its file.
    Report { client: usize },
}

// The state of a recovery.
#[derive(Clone, Copy)]
pub struct Recovery {
    pub recovering: bool,
    pub reported: [bool; MAX_CLIENTS],
    // The clients under embargo, for which it does not wait.
    pub embargoed: [bool; MAX_CLIENTS],
}

// The state of the recovery after a step, the reply, and what the entries do.
#[derive(Clone, Copy)]
pub struct RecoveryOutcome {
    pub recovery: Recovery,
    pub reply: Reply,
    pub sweep: Sweep,
}

impl Recovery {
    fn kept(self, reply: Reply) -> RecoveryOutcome
        ensures { result ≡ kept_outcome self reply }
    {
        RecoveryOutcome {
            recovery: self,
            reply,
            sweep: Sweep::Stay,
        }
    }

    // The reports are lost, and recovery begins.
    pub fn crash(self, sizes: Sizes) -> RecoveryOutcome
        requires { Permitted sizes }
        ensures { (clash : Bool) → result ≡ recovery_step sizes self clash Step.Crash }
    {
        let reports = self.reported;
        let embargoed = self.embargoed;
        let recovery = Recovery {
            recovering: true,
            reported: without_reports(reports, sizes.clients),
            embargoed,
        };
        RecoveryOutcome {
            recovery,
            reply: Reply::Done,
            sweep: Sweep::Crash,
        }
    }

    // Recovery ends, and the reports are forgotten.
    pub fn end(self, sizes: Sizes) -> RecoveryOutcome
        requires { Permitted sizes }
        ensures { (clash : Bool) → result ≡ recovery_step sizes self clash Step.End }
    {
        let reports = self.reported;
        let embargoed = self.embargoed;
        if let Err(refusal) = end_refusal(sizes, self.recovering, reports, embargoed) {
            return self.kept(Reply::from(refusal));
        }
        let ended = Recovery {
            recovering: false,
            reported: without_reports(reports, sizes.clients),
            embargoed,
        };
        ended.kept(Reply::Done)
    }
}

// The reports, with none of the clients'.
fn without_reports(mut reports: [bool; MAX_CLIENTS], clients: usize) -> [bool; MAX_CLIENTS]
    requires { clients ≤ max_clients }
    ensures { result ≡ filled clients false reports }
{
    reports[..clients].fill(false);
    reports
}
