// The refusals of document 01, and those of document 02. They are tested in number order, save that 19 follows 1,
// 20 and 21 follow 4, and 22 follows 7; 23 is tested last.
ghost use Rattle.std.specs.Prelude.{◌≡◌, cond};
ghost use Rattle.protocol.specs.Refused.{number_of, refusal_if, refused_with};

use crate::reply::Reply;

#[derive(Clone, Copy)]
pub enum Refusal {
    NoStep = 1,
    NoClient = 2,
    NoFile = 3,
    NoBlock = 4,
    InRecovery = 5,
    NotInRecovery = 6,
    Reported = 7,
    ReportMissing = 8,
    OpenWaits = 9,
    NoCall = 10,
    NotOpen = 11,
    CountFull = 12,
    NotDirty = 13,
    VersionSpent = 14,
    OpenWaitsAtWriting = 15,
    BufferTooShort = 16,
    NoImage = 17,
    ListTooLong = 18,
    OutOfRange = 19,
    UnderEmbargo = 20,
    NotUnderEmbargo = 21,
    ReportsClash = 22,
    NoPlace = 23,
}

impl Refusal {
    // The number that is printed.
    pub fn number(self) -> u8
        ensures { result ≡ number_of self }
    {
        self as u8
    }
}

impl From<Refusal> for Reply {
    fn from(refusal: Refusal) -> Reply
        ensures { result ≡ refused_with refusal }
    {
        Reply::Refused(refusal.number())
    }
}

// Refused where the test holds.
pub fn refuse_if(test: bool, refusal: Refusal) -> Result<(), Refusal>
    ensures { result ≡ refusal_if test refusal }
{
    if test { Err(refusal) } else { Ok(()) }
}
