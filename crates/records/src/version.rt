// The version of a file, and of a client's copy of it: 32 bits, 1 at the start, 0 for no copy. The field is private,
// so that no count and no block value can stand for a version.
ghost use Rattle.std.specs.Prelude.{◌≡◌};
ghost use Rattle.records.specs.Version.{version_of, no_version, first_version, number_of, as_read, next_version};
ghost use Rattle.records.specs.Version.{previous_version};
ghost use Rattle.records.specs.Version.{is_no_version, is_first_version, is_last_version, lags_at_most, latest_at};

use crate::record::Mode;

#[derive(Clone, Copy)]
pub struct Version(u32);

impl Version {
    // No copy.
    pub fn none() -> Self
        ensures { result ≡ no_version }
    {
        Version(0)
    }

    // The version that every file has at the start.
    pub fn first() -> Self
        ensures { result ≡ first_version }
    {
        Version(1)
    }

    // The version of a number. It is needed where versions are loaded, and is used nowhere else: from the words of a
    // lent table and of a reply (crate words), and from the bytes of an image (crate restore).
    pub fn numbered(number: u32) -> Self
        ensures { result ≡ version_of number }
    {
        Version(number)
    }

    // The number that is printed.
    pub fn number(self) -> u32
        ensures { result ≡ number_of self }
    {
        self.0
    }

    pub fn as_read(self) -> Self
        ensures { result ≡ as_read self }
    {
        if self.is_none() { Version(1) } else { self }
    }

    pub fn next(self) -> Self
        ensures { result ≡ next_version self }
    {
        Version(self.0.saturating_add(1))
    }

    pub fn previous(self) -> Self
        ensures { result ≡ previous_version self }
    {
        Version(self.0.saturating_sub(1))
    }

    // Whether this labels no copy.
    pub fn is_none(self) -> bool
        ensures { result ≡ is_no_version self }
    {
        self.0 == 0
    }

    pub fn is_first(self) -> bool
        ensures { result ≡ is_first_version self }
    {
        self.0 == 1
    }

    pub fn is_last(self) -> bool
        ensures { result ≡ is_last_version self }
    {
        self.0 == u32::MAX
    }

    // Whether this version is not above the latest, and at most so many versions behind it.
    pub fn lags_at_most(self, most: u32, latest: Version) -> bool
        ensures { result ≡ lags_at_most most self latest }
    {
        self.0 <= latest.0 && latest.0 - self.0 <= most
    }

    // The latest version once an open in the mode is granted.
    pub fn latest_at(self, mode: Mode) -> Self
        ensures { result ≡ latest_at mode self }
    {
        match mode {
            Mode::Read => self.as_read(),
            Mode::Write => self.as_read().next(),
        }
    }
}
