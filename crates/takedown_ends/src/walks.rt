// Walks along a loop that find the least of what they meet.
ghost use Rattle.std.specs.Prelude.{◌≡◌, ℕ, ◌<◌, ◌≤◌};
ghost use Rattle.takedown.specs.Swift.{least_mate, least_run};
ghost use Rattle.takedown_ends.specs.Walks.{Met};

use layout::columns::next_of;
use layout::mates::mate_of;
use layout::shape::Shape;

// The least of `best` and the keys of the half-edges from `from` up to before stop; `fuel` bounds the steps in a
// table that is not sound.
fn least_met<F: Fn(usize) -> usize>(
    links: &[u16],
    sh: Shape,
    fuel: usize,
    from: usize,
    stop: usize,
    best: usize,
    key: F,
) -> usize
    requires { (from < 65536) × ((j : ℕ) → j < 65536 → F.pre key j) }
    ensures { Met (F.post key) sh fuel links.now from stop best result }
{
    let mut j = from;
    let mut least = best;
    for _ in 0..fuel {
        if j == stop {
            return least;
        }
        least = key(j).min(least);
        j = next_of(links, sh, j);
    }
    least
}

// The least of `best` and the mates of the half-edges from `from` up to before stop.
pub fn least_mate(
    links: &[u16],
    sh: Shape,
    fuel: usize,
    from: usize,
    stop: usize,
    best: usize,
) -> usize
    requires { from < 65536 }
    ensures { result ≡ least_mate sh fuel links.now from stop best }
{
    least_met(links, sh, fuel, from, stop, best, mate_of)
}

// The least of `best`, the half-edges from `from` up to before stop, and their mates.
pub fn least_run(
    links: &[u16],
    sh: Shape,
    fuel: usize,
    from: usize,
    stop: usize,
    best: usize,
) -> usize
    requires { from < 65536 }
    ensures { result ≡ least_run sh fuel links.now from stop best }
{
    least_met(links, sh, fuel, from, stop, best, |j| j.min(mate_of(j)))
}
