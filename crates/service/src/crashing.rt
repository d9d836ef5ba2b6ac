// A crash of a service by value: the reading of an image begins with it. It goes by the step on the table, so that
// `take_step` has one caller in a program that reads images, and is compiled into its loop.
ghost use Rattle.std.specs.Prelude.{◌≡◌};
ghost use Rattle.service.specs.Reports.{RecoveryAgrees};
ghost use Rattle.service.specs.Step.{step_of};

use crate::held_service::HeldService;
use crate::service::Service;
use protocol::Step;

impl Service {
    // The service after a crash. Whatever it was, the reports accepted in the recovery that begins agree.
    pub fn crashed(self) -> Self
        ensures value { result ≡ (step_of self Step.Crash).service }
        ensures recovery_agrees { RecoveryAgrees result }
    {
        let given = self.sizes;
        let mut held = HeldService::holding(&self);
        let _ = held.step_table(given.in_force(), Step::Crash);
        held.to_service(given)
    }
}
