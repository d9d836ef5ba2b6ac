// What a step hands back.
use crate::service::Service;
use protocol::{Granting, Reply};
use sizes::{MAX_CLIENTS, MAX_FILES};

#[derive(Clone, Copy)]
pub struct Outcome {
    pub service: Service,
    pub reply: Reply,
    // The callbacks that the step sends, by ascending client: a kind for each client, 0 for none.
    pub calls: [u8; MAX_CLIENTS],
    // The opens of others that a restart or an embargo grants, by ascending file; past the last of them `Granting::none()`.
    pub grants: [Granting; MAX_FILES],
}
