// The opens of a list, in one request.
ghost use Rattle.std.specs.Prelude.{◌≡◌, ◌≤◌};
ghost use Rattle.batch.specs.Batch.{max_openings, mode_at, listed, batch_of};
ghost use Rattle.batch.specs.Demand3.{GoesOn};

use protocol::{Refusal, Reply, Step};
use records::Mode;
use service::{HeldService, Service};
use sizes::MAX_CLIENTS;
use words::{SAID, calls_with, reply_of};

// The most openings of a list (document 02: entries).
pub const MAX_OPENINGS: usize = 16;

// What one opening of the list got.
#[derive(Clone, Copy)]
pub struct OpenReply {
    pub reply: Reply,
    // The callbacks that it sends, by ascending client: a kind for each client, 0 for none.
    pub calls: [u8; MAX_CLIENTS],
}

// What a batch hands back.
#[derive(Clone, Copy)]
pub struct BatchOutcome {
    pub service: Service,
    // Done, or refused with 18, and then no opening was tried.
    pub reply: Reply,
    // How many openings were tried: the first so many of the replies are theirs, in list order.
    pub count: usize,
    pub replies: [OpenReply; MAX_OPENINGS],
}

// The mode of an opening: for write if its flag says so; for read if not, or if it has no flag.
fn mode_at(writes: &[bool], k: usize) -> Mode
    ensures { result ≡ mode_at writes.now k }
{
    if k < writes.len() {
        if writes[k] {
            return Mode::Write;
        }
    }
    Mode::Read
}

// Opens the files for the client, in list order, each for write if its flag says so. The list is as long as the files
// are: a file past the flags is opened for read, and a flag past the files is passed over. The service is held
// once for the whole list, and made of what is held once.
pub fn open_batch(service: Service, client: usize, files: &[usize], writes: &[bool]) -> BatchOutcome
    ensures value { result ≡ batch_of service client (listed files.now writes.now) }
    ensures goes_on { GoesOn service result.service }
    ensures count_le_max_openings { result.count ≤ max_openings }
{
    let none = OpenReply {
        reply: Reply::Done,
        calls: [0; MAX_CLIENTS],
    };
    let mut replies = [none; MAX_OPENINGS];
    let count = files.len();
    if count > MAX_OPENINGS {
        return BatchOutcome {
            service,
            reply: Reply::from(Refusal::ListTooLong),
            count: 0,
            replies,
        };
    }
    let sizes = service.sizes;
    let mut held = HeldService::holding(&service);
    let mut words = [0u64; SAID];
    for k in 0..count {
        let file = files[k];
        let mode = mode_at(writes, k);
        let said = held.take_step(sizes, Some(Step::Open { mode, client, file }), &mut words);
        replies[k] = OpenReply {
            reply: reply_of(said, &words),
            calls: calls_with(said, &words),
        };
    }
    BatchOutcome {
        service: held.to_service(sizes),
        reply: Reply::Done,
        count,
        replies,
    }
}
