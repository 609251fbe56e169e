// One scan for all searches: the least number from a lower end on that passes, 0 where none does. The test is the
// caller's.
ghost use Rattle.std.specs.Prelude.{ℕ, ◌≤◌};
ghost use Rattle.takedown_search.specs.Sought.{Sought};

use searching::least;

// The least of low to n that passes.
pub fn seek<F: Fn(usize) -> bool>(low: usize, n: usize, test: F) -> usize
    requires { (k : ℕ) → low ≤ k → k ≤ n → F.pre test k }
    ensures { (Sought (F.post test) low n result) × (result ≤ n) }
{
    least(low, n, test).unwrap_or(0)
}
