// A step on a service by value: it is held, takes the step there, and is made of what is held again.
ghost use Rattle.std.specs.Prelude.{◌≡◌};
ghost use Rattle.service.specs.Step.{step_of};

use crate::held_service::HeldService;
use crate::outcome::Outcome;
use crate::service::Service;
use protocol::Step;
use words::{SAID, calls_with, grants_of, reply_of};

impl Service {
    // One step, from any service.
    pub fn step(self, step: Step) -> Outcome
        ensures { result ≡ step_of self step }
    {
        let sizes = self.sizes;
        let mut held = HeldService::holding(&self);
        let mut words = [0u64; SAID];
        let said = held.take_step(sizes, Some(step), &mut words);
        Outcome {
            service: held.to_service(sizes),
            reply: reply_of(said, &words),
            calls: calls_with(said, &words),
            grants: grants_of(said, &words),
        }
    }
}
