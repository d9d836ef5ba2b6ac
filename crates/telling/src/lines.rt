// When a loop over lines stops.
ghost use Rattle.std.specs.Prelude.{◌≡◌};
ghost use Rattle.telling.specs.Lines.{can_tell};

// Whether another line can be told: there is so much room for it, and its number is one, with another after it.
pub fn can_tell(need: usize, room: usize, to: usize, number: u64) -> bool
    ensures { result ≡ can_tell need room to number }
{
    need <= room && to <= room - need && 0 < number && number < u64::MAX
}
