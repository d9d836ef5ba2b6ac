// A client's side of one file: what it holds besides the copies of the blocks, and how its steps change it.
ghost use Rattle.std.specs.Prelude.{◌≡◌};
ghost use Rattle.protocol.specs.Access.{client_read, client_written};
ghost use Rattle.protocol.specs.Client.{granted_client, keeps_blocks, closed_client, flushed_client, answered_client};
ghost use Rattle.protocol.specs.Client.{read_needs_server, write_needs_server, no_client};

use crate::copy::keeps_copy;
use crate::reply::{Grant, Reply};
use decision::{invalidates, writes_back};
use records::{ClientRecord, Mode, Version, either};
use sizes::MAX_CLIENTS;

#[derive(Clone, Copy)]
pub struct ClientFile {
    pub opens: ClientRecord,
    // The last-writer flag (document 01: mark).
    pub marked: bool,
    // The version of the cached copy, 0 for no copy (document 01: label).
    pub label: Version,
}

// A client's copy of one block: its value, whether it is held, and whether it is dirty.
#[derive(Clone, Copy)]
pub struct BlockCopy {
    pub value: u64,
    pub held: bool,
    pub dirty: bool,
}

// What a read or a write leaves, of the client's side of the file, of its copy of the block and of the server's block;
// and the reply.
#[derive(Clone, Copy)]
pub struct Accessed {
    pub side: ClientFile,
    pub copy: BlockCopy,
    pub block: u64,
    pub reply: Reply,
}

// The clients' sides of one file.
#[derive(Clone, Copy)]
pub struct Sides {
    pub of: [ClientFile; MAX_CLIENTS],
}

impl ClientFile {
    // The side of a client that has nothing of the file.
    pub fn none() -> Self
        ensures { result ≡ no_client }
    {
        ClientFile {
            opens: ClientRecord::not_open(),
            marked: false,
            label: Version::none(),
        }
    }

    pub fn granted(self, mode: Mode, grant: Grant) -> Self
        ensures { result ≡ granted_client mode grant self }
    {
        ClientFile {
            opens: self.opens.opened(mode, grant.caching),
            marked: !mode.is_write() & self.marked,
            label: either(grant.caching, grant.latest, Version::none()),
        }
    }

    // Whether the copies of the blocks are kept at a grant.
    pub fn keeps_blocks(self, mode: Mode, grant: Grant) -> bool
        ensures { result ≡ keeps_blocks mode grant self }
    {
        grant.caching & keeps_copy(mode, self.label, grant.latest)
    }

    // The client has closed; dirty says whether a block of the file is dirty here.
    pub fn closed(mut self, mode: Mode, dirty: bool) -> Self
        ensures { result ≡ closed_client mode dirty self }
    {
        if self.opens.ends_writing(mode) {
            self.marked = dirty;
        }
        self.opens = self.opens.closed(mode);
        self
    }

    // The client has flushed a block; left says whether another of the file is still dirty here.
    pub fn flushed(mut self, left: bool) -> Self
        ensures { result ≡ flushed_client left self }
    {
        self.marked = left & self.marked;
        self
    }

    // The client has answered its callback of this kind.
    // Stays: the kind is a number, as in crates/decision/src/kind.rt.
    pub fn answered(self, kind: u8) -> Self
        ensures { result ≡ answered_client kind self }
    {
        let invalidated = invalidates(kind);
        ClientFile {
            opens: either(invalidated, self.opens.uncached(), self.opens),
            marked: !writes_back(kind) & self.marked,
            label: either(invalidated, Version::none(), self.label),
        }
    }

    // A read of a block, of which the server has this.
    pub fn read(self, copy: BlockCopy, block: u64) -> Accessed
        ensures { result ≡ client_read self copy block }
    {
        let value = either(self.opens.caching & copy.held, copy.value, block);
        Accessed {
            side: self,
            copy: BlockCopy {
                value: either(self.opens.caching, value, copy.value),
                held: self.opens.caching | copy.held,
                dirty: copy.dirty,
            },
            block,
            reply: Reply::Value(value),
        }
    }

    // A write of a block, of which the server has this.
    pub fn write(self, copy: BlockCopy, block: u64, value: u64) -> Accessed
        ensures { result ≡ client_written self copy block value }
    {
        Accessed {
            side: self,
            copy: BlockCopy {
                value: either(self.opens.caching, value, copy.value),
                held: self.opens.caching | copy.held,
                dirty: self.opens.caching | copy.dirty,
            },
            block: either(self.opens.caching, block, value),
            reply: Reply::Done,
        }
    }

    pub fn read_needs_server(self, held: bool) -> bool
        ensures { result ≡ read_needs_server self held }
    {
        !(self.opens.is_open() & self.opens.caching & held)
    }

    pub fn write_needs_server(self) -> bool
        ensures { result ≡ write_needs_server self }
    {
        !((0 < self.opens.writers) & self.opens.caching)
    }
}
