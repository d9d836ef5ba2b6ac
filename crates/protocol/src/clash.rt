// What two clients say of one file, where it cannot both be true.
ghost use Rattle.std.specs.Prelude.{◌≡◌};
ghost use Rattle.protocol.specs.Clash.{says_anything, breaks, clash};

use crate::client::ClientFile;

impl ClientFile {
    // Whether the client says anything of the file.
    pub fn says_anything(self) -> bool
        ensures { result ≡ says_anything self }
    {
        self.opens.is_open() | self.opens.caching | self.marked
    }

    // Whether the client, alone or beside the other, breaks one of the four rules.
    fn breaks(self, other: ClientFile) -> bool
        ensures { result ≡ breaks self other }
    {
        let opens = self.opens;
        let others = other.opens;
        let writes = 0 < opens.writers;
        let unopened = opens.caching & !opens.is_open();
        let misplaced = self.marked & (writes | (opens.is_open() & !opens.caching));
        let beside = self.marked & (others.is_open() | other.marked);
        let shared = writes & others.caching;
        unopened | misplaced | beside | shared
    }

    pub fn clashes(self, other: ClientFile) -> bool
        ensures { result ≡ clash self other }
    {
        self.breaks(other) | other.breaks(self)
    }
}
