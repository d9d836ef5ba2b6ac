// The service with the totals of the traffic beside it.
use service::HeldService;
use trace::TOTALS;

#[derive(Clone, Copy)]
pub struct CountedService {
    pub service: HeldService,
    pub totals: [u64; TOTALS],
}
