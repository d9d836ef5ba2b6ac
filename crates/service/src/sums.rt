// A test of each number, and a sum over the files, for the counts of the store.
ghost use Rattle.std.specs.Prelude.{◌≡◌, Bool, ℕ, ◌<◌, ◌≤◌};
ghost use Rattle.sizes.specs.Sizes.{max_files, max_blocks};
ghost use Rattle.service.specs.Space.{any_below, sum_below};

// Whether one of the numbers below n passes the test.
pub fn any_below<F: Fn(usize) -> bool>(n: usize, test: F) -> bool
    requires { (i : ℕ) → i < n → F.pre test i }
    ensures { (p : ℕ → Bool) → ((i : ℕ) (b : Bool) → i < n → F.post test i b → b ≡ p i) → result ≡ any_below n p }
{
    // Stays: `(0..n).any(test)` was tried, and the proof by `any_below` did not close.
    let mut found = false;
    for i in 0..n {
        found |= test(i);
    }
    found
}

// The sum of what is counted of each of the first n files: of its blocks.
pub fn sum_of_files<F: Fn(usize) -> usize>(n: usize, of: F) -> usize
    requires n_le_max_files { n ≤ max_files }
    requires callable { (f : ℕ) → f < n → F.pre of f }
    requires few { (f k : ℕ) → f < n → F.post of f k → k ≤ max_blocks }
    ensures { (g : ℕ → ℕ) → ((f k : ℕ) → f < n → F.post of f k → k ≡ g f) → result ≡ sum_below n g }
{
    // Stays: `sum` of a chain asks for a bound on all that it adds, which `few` gives for one file at a time.
    let mut sum: usize = 0;
    for f in 0..n {
        sum += of(f);
    }
    sum
}
