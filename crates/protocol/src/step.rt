// The steps that the service takes, and each as numbers. The numbers are as given: one that names nothing is refused,
// and no step is cut.
ghost use Rattle.std.specs.Prelude.{◌≡◌};
ghost use Rattle.protocol.specs.Step.{is_on_all, five, step_numbered, numbers_of, by_mode};

use records::Mode;

#[derive(Clone, Copy)]
pub enum Step {
    Open {
        mode: Mode,
        client: usize,
        file: usize,
    },
    Close {
        mode: Mode,
        client: usize,
        file: usize,
    },
    Read {
        client: usize,
        file: usize,
        block: usize,
    },
    Write {
        client: usize,
        file: usize,
        block: usize,
        value: u64,
    },
    // One dirty block goes to the server.
    Flush {
        client: usize,
        file: usize,
        block: usize,
    },
    // A callback is answered (document 01: a reply to a call).
    Answer {
        client: usize,
        file: usize,
    },
    // The server crashes.
    Crash,
    // A client reports its opens to the recovering server.
    Report {
        client: usize,
    },
    // Recovery ends.
    End,
    // A client has restarted, and says so.
    Restart {
        client: usize,
    },
    // A client that has a callback on the file is put under embargo.
    Embargo {
        client: usize,
        file: usize,
    },
    // A client is told that it was under embargo.
    Lift {
        client: usize,
    },
}

impl Step {
    // Whether it is a step on all files: a restart, an embargo, or its end.
    pub fn is_on_all(self) -> bool
        ensures { result ≡ is_on_all self }
    {
        matches!(
            self,
            Step::Restart { .. } | Step::Embargo { .. } | Step::Lift { .. }
        )
    }
}

// A step as five numbers; those that it does not have are 0.
// Stays: numbers beside the enum, for whoever has a step as numbers (`Numbers::step`), and for what a step names
// (`asked`, `client_of`).
#[derive(Clone, Copy)]
pub struct Numbers {
    pub kind: u64,
    pub client: usize,
    pub file: usize,
    pub block: usize,
    pub value: u64,
}

impl Numbers {
    // The step of the numbers; a kind past the last is none, and what a step does not name is not looked at.
    pub fn step(self) -> Option<Step>
        ensures { result ≡ step_numbered self }
    {
        let Numbers {
            kind,
            client,
            file,
            block,
            value,
        } = self;
        Some(match kind {
            0 => Step::Open {
                mode: Mode::Read,
                client,
                file,
            },
            1 => Step::Open {
                mode: Mode::Write,
                client,
                file,
            },
            2 => Step::Close {
                mode: Mode::Read,
                client,
                file,
            },
            3 => Step::Close {
                mode: Mode::Write,
                client,
                file,
            },
            4 => Step::Read {
                client,
                file,
                block,
            },
            5 => Step::Write {
                client,
                file,
                block,
                value,
            },
            6 => Step::Flush {
                client,
                file,
                block,
            },
            7 => Step::Answer { client, file },
            8 => Step::Crash,
            9 => Step::Report { client },
            10 => Step::End,
            11 => Step::Restart { client },
            12 => Step::Embargo { client, file },
            13 => Step::Lift { client },
            _ => return None,
        })
    }
}

fn asked_of(kind: u64, client: usize, file: usize, block: usize, value: u64) -> Numbers
    ensures { result ≡ five kind client file block value }
{
    Numbers {
        kind,
        client,
        file,
        block,
        value,
    }
}

pub fn asked(step: Step) -> Numbers
    ensures { result ≡ numbers_of step }
{
    match step {
        Step::Open { mode, client, file } => asked_of(by_mode(mode, 0, 1), client, file, 0, 0),
        Step::Close { mode, client, file } => asked_of(by_mode(mode, 2, 3), client, file, 0, 0),
        Step::Read {
            client,
            file,
            block,
        } => asked_of(4, client, file, block, 0),
        Step::Write {
            client,
            file,
            block,
            value,
        } => asked_of(5, client, file, block, value),
        Step::Flush {
            client,
            file,
            block,
        } => asked_of(6, client, file, block, 0),
        Step::Answer { client, file } => asked_of(7, client, file, 0, 0),
        Step::Crash => asked_of(8, 0, 0, 0, 0),
        Step::Report { client } => asked_of(9, client, 0, 0, 0),
        Step::End => asked_of(10, 0, 0, 0, 0),
        Step::Restart { client } => asked_of(11, client, 0, 0, 0),
        Step::Embargo { client, file } => asked_of(12, client, file, 0, 0),
        Step::Lift { client } => asked_of(13, client, 0, 0, 0),
    }
}

fn by_mode(mode: Mode, read: u64, write: u64) -> u64
    ensures { result ≡ by_mode mode read write }
{
    match mode {
        Mode::Read => read,
        Mode::Write => write,
    }
}
