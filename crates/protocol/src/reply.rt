// What a step is answered. What it brings to others stands beside the reply: the callbacks of an open that waits, one kind
// for each client, and the opens of others that are granted, one after the other.
ghost use Rattle.std.specs.Prelude.{◌≡◌};
ghost use Rattle.protocol.specs.Reply.{no_granting, is_refused};

use crate::entry::NOBODY;
use records::Version;

// What the server tells the opener of a file.
#[derive(Clone, Copy)]
pub struct Grant {
    pub latest: Version,
    pub previous: Version,
    pub caching: bool,
}

// The open of a client that waited, and that a step of another grants.
#[derive(Clone, Copy)]
pub struct Granting {
    pub client: u8,
    pub grant: Grant,
}

impl Granting {
    // What stands past the last in a list of them.
    // Stays: no Option, for `no_granting` stands in lists that other theorems speak of (`grants_said`, `open_records`).
    pub fn none() -> Self
        ensures { result ≡ no_granting }
    {
        Granting {
            client: NOBODY,
            grant: Grant {
                latest: Version::none(),
                previous: Version::none(),
                caching: false,
            },
        }
    }
}

#[derive(Clone, Copy)]
pub enum Reply {
    // The open is granted.
    Granted(Grant),
    // The open waits for the callbacks.
    Waiting,
    // The block that was read.
    Value(u64),
    // Refused, for document 01's number.
    // Stays: the number, and no `Refusal`, for `reply_of` reads the number of any word back (`reply_said`).
    Refused(u8),
    // The callback is answered with so many blocks, and others are still out.
    Answered(usize),
    // The callback is answered with so many blocks, and this client's waiting open is granted.
    AnsweredGrant(usize, u8, Grant),
    // Done: a close, a write, a flush, a crash, a report, the end of recovery, or a restart.
    Done,
}

impl Reply {
    pub fn is_refused(self) -> bool
        ensures { result ≡ is_refused self }
    {
        matches!(self, Reply::Refused(_))
    }
}
