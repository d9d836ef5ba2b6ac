// The kinds of callback: 1 writes back, 2 invalidates, 3 does both; 0 asks nothing.
// Stays: a number, for the calls of an entry and of a lent word hold any byte, and each function here answers for each.
ghost use Rattle.std.specs.Prelude.{◌≡◌};
ghost use Rattle.decision.specs.Callback.{writes_back, invalidates, asks_nothing};

pub fn writes_back(kind: u8) -> bool
    ensures { result ≡ writes_back kind }
{
    matches!(kind, 1 | 3)
}

pub fn invalidates(kind: u8) -> bool
    ensures { result ≡ invalidates kind }
{
    matches!(kind, 2 | 3)
}

pub fn asks_nothing(kind: u8) -> bool
    ensures { result ≡ asks_nothing kind }
{
    match kind {
        0 => true,
        _ => false,
    }
}
