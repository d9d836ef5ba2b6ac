// Counting by a test of the numbers below n, for any n.
ghost use Rattle.std.specs.Prelude.{ℕ, Bool, ◌≡◌, ◌<◌, ◌≤◌};
ghost use Rattle.decision.specs.Lists.{count};

use crate::state::one_if;

// How many of them pass the test.
pub fn count_below<F: Fn(usize) -> bool>(n: usize, test: F) -> usize
    requires { (i : ℕ) → i < n → F.pre test i }
    ensures counted { (p : ℕ → Bool) → ((i : ℕ) (b : Bool) → i < n → F.post test i b → b ≡ p i) → result ≡ count n p }
    ensures upper_bound { result ≤ n }
{
    let mut found: usize = 0;
    for i in 0..n {
        found += one_if(test(i));
    }
    found
}
