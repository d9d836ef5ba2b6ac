// One client's opens of one file, as either side keeps them (document 01: a station record).
ghost use Rattle.std.specs.Prelude.{◌≡◌};
ghost use Rattle.records.specs.Record.{not_open, is_write, allowed_lag, is_open, count_of, keeps_permission};
ghost use Rattle.records.specs.Record.{ends_writing};
ghost use Rattle.records.specs.Record.{opened as opened_record, closed as closed_record};
ghost use Rattle.records.specs.Record.{settled as settled_record, uncached as uncached_record};

// The mode of an open or a close. Opening for write means read and write.
#[derive(Clone, Copy)]
pub enum Mode {
    Read,
    Write,
}

impl Mode {
    pub fn is_write(self) -> bool
        ensures { result ≡ is_write self }
    {
        matches!(self, Mode::Write)
    }

    // How many versions a copy that is kept at an open in this mode may be behind the latest.
    pub fn allowed_lag(self) -> u32
        ensures { result ≡ allowed_lag self }
    {
        match self {
            Mode::Read => 0,
            Mode::Write => 1,
        }
    }
}

#[derive(Clone, Copy)]
pub struct ClientRecord {
    pub readers: u8,
    pub writers: u8,
    // The client may cache the file (document 01: permission).
    pub caching: bool,
}

impl ClientRecord {
    // The record of a client that has not opened the file.
    pub fn not_open() -> Self
        ensures { result ≡ not_open }
    {
        ClientRecord {
            readers: 0,
            writers: 0,
            caching: false,
        }
    }

    pub fn is_open(self) -> bool
        ensures { result ≡ is_open self }
    {
        (0 < self.readers) | (0 < self.writers)
    }

    pub fn count(self, mode: Mode) -> u8
        ensures { result ≡ count_of mode self }
    {
        match mode {
            Mode::Read => self.readers,
            Mode::Write => self.writers,
        }
    }

    pub fn keeps_permission(self, mode: Mode) -> bool
        ensures { result ≡ keeps_permission mode self }
    {
        match mode {
            Mode::Read => self.is_open(),
            Mode::Write => 0 < self.writers,
        }
    }

    pub fn ends_writing(self, mode: Mode) -> bool
        ensures { result ≡ ends_writing mode self }
    {
        match mode {
            Mode::Read => false,
            Mode::Write => (self.writers == 1) & self.caching,
        }
    }

    pub fn opened(mut self, mode: Mode, caching: bool) -> Self
        ensures { result ≡ opened_record mode caching self }
    {
        match mode {
            Mode::Read => self.readers = self.readers.saturating_add(1),
            Mode::Write => self.writers = self.writers.saturating_add(1),
        }
        self.caching = caching;
        self
    }

    pub fn closed(mut self, mode: Mode) -> Self
        ensures { result ≡ closed_record mode self }
    {
        match mode {
            Mode::Read => self.readers = self.readers.saturating_sub(1),
            Mode::Write => self.writers = self.writers.saturating_sub(1),
        }
        self.settled()
    }

    // A client that is not open has no permission.
    fn settled(mut self) -> Self
        ensures { result ≡ settled_record self }
    {
        self.caching = self.is_open() & self.caching;
        self
    }

    pub fn uncached(mut self) -> Self
        ensures { result ≡ uncached_record self }
    {
        self.caching = false;
        self
    }
}
