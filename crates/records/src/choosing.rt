// A choice of two values.
ghost use Rattle.std.specs.Prelude.{◌≡◌, cond};

// The one value where the test holds, else the other.
pub fn either<T: Copy>(holds: bool, one: T, other: T) -> T
    ensures { result ≡ cond holds one other }
{
    if holds { one } else { other }
}
