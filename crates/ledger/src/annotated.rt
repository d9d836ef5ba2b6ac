// The service with what is noted beside it.
ghost use Rattle.std.specs.Prelude.{◌≡◌};
ghost use Rattle.ledger.specs.Annotated.{unannotated};

use crate::ledger::Ledger;
use crate::refusals::REFUSAL_NUMBERS;
use service::Service;

#[derive(Clone, Copy)]
pub struct Annotated {
    pub service: Service,
    pub ledger: Ledger,
    // How often each refusal was given.
    pub refusals: [u64; REFUSAL_NUMBERS],
}

impl Annotated {
    // Nothing is noted yet.
    pub fn new(service: Service) -> Self
        ensures { result ≡ unannotated service }
    {
        Annotated {
            service,
            ledger: Ledger::new(),
            refusals: [0; REFUSAL_NUMBERS],
        }
    }
}
