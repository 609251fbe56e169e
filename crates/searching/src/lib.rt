// Searches through numbers, one after the other: whether all pass a test, whether one does, the least that does, and
// how many do. The test is the caller's.

#![tactic(auto)]

ghost use Rattle.std.specs.Prelude.{ℕ, ◌≤◌};
ghost use Rattle.searching.specs.Searching.{AllPass, OnePasses, LeastPasses, Counted};

// All of 1 to n pass.
pub fn all_pass<F: Fn(usize) -> bool>(n: usize, test: F) -> bool
    requires { (k : ℕ) → 1 ≤ k → k ≤ n → F.pre test k }
    ensures { AllPass (F.post test) n result }
{
    for k in 0..n {
        if !test(k + 1) {
            return false;
        }
    }
    true
}

// One of 1 to n passes.
pub fn one_passes<F: Fn(usize) -> bool>(n: usize, test: F) -> bool
    requires { (k : ℕ) → 1 ≤ k → k ≤ n → F.pre test k }
    ensures { OnePasses (F.post test) n result }
{
    for k in 0..n {
        if test(k + 1) {
            return true;
        }
    }
    false
}

// The least of low to n that passes.
pub fn least<F: Fn(usize) -> bool>(low: usize, n: usize, test: F) -> Option<usize>
    requires { (k : ℕ) → low ≤ k → k ≤ n → F.pre test k }
    ensures { LeastPasses (F.post test) low n result }
{
    let mut k = low;
    // Kept: a range that includes its end asks twice a turn whether it is over, 1.5 times the cost of a short test.
    // Where n is known to be less than MAX, the compiler leaves out the test for MAX.
    while k <= n {
        if test(k) {
            return Some(k);
        }
        if k == usize::MAX {
            return None;
        }
        k += 1;
    }
    None
}

// How many of 1 to n pass.
pub fn count<F: Fn(usize) -> bool>(n: usize, test: F) -> usize
    requires { (k : ℕ) → 1 ≤ k → k ≤ n → F.pre test k }
    ensures { Counted (F.post test) n result }
{
    let mut total: usize = 0;
    for k in 0..n {
        if test(k + 1) {
            total += 1;
        }
    }
    total
}
