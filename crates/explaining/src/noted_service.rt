// The service with what is noted beside it: the ledger, and how often each refusal was given.
use ledger::{Ledger, REFUSAL_NUMBERS};
use service::HeldService;

#[derive(Clone, Copy)]
pub struct NotedService {
    pub service: HeldService,
    pub ledger: Ledger,
    pub refusals: [u64; REFUSAL_NUMBERS],
}
