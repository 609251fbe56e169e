// Crossed edges: some other edge has exactly one half between k and its mate. One walk marks what lies between; a
// second asks each half-edge there whether its own mate is marked too.
ghost use Rattle.std.specs.Prelude.{◌≡◌, ℕ, ◌*◌, ◌<◌, ◌≤◌, length};
ghost use Rattle.bounds.specs.Bounds.{most_halves};
ghost use Rattle.layout.specs.Small.{Small};
ghost use Rattle.takedown.specs.Inversion as inversion;
ghost use Rattle.takedown_crossing.specs.Marking.{mark_places, mark_run, unpaired, any_unpaired};

use bounds::HALF_PLACES;
use layout::columns::next_of;
use layout::mates::mate_of;
use layout::shape::Shape;
use marking::put_mark;

// A place for each half-edge's number, for 0, and for the mate of the number behind the last.
const MARK_PLACES: usize = HALF_PLACES + 1;

// The half-edges from `from` up to before stop marked; `fuel` bounds the steps in a table that is not sound.
fn mark_run(
    links: &[u16],
    sh: Shape,
    fuel: usize,
    from: usize,
    stop: usize,
    marks: &mut [u8; MARK_PLACES],
)
    requires { (from < 65536) × (length marks.old ≡ mark_places) }
    ensures { marks.new ≡ mark_run sh fuel links.now from stop marks.old }
{
    let mut k = from;
    for _ in 0..fuel {
        if k == stop {
            return;
        }
        put_mark(marks, k);
        k = next_of(links, sh, k);
    }
}

// Half-edge k is one of 1 to n, and its mate is not marked.
fn is_unpaired(n: usize, marks: &[u8; MARK_PLACES], k: usize) -> bool
    requires { (n ≤ most_halves) × (k < 65536) }
    ensures { result ≡ unpaired n marks.now k }
{
    if (k < 1) | (k > n) {
        return false;
    }
    let m = mate_of(k);
    marks[m] == 0
}

// Some half-edge from `from` up to before stop is so.
fn any_unpaired(
    links: &[u16],
    sh: Shape,
    n: usize,
    from: usize,
    stop: usize,
    marks: &[u8; MARK_PLACES],
) -> bool
    requires { (from < 65536) × (n ≤ most_halves) }
    ensures { result ≡ any_unpaired sh n n links.now from stop marks.now }
{
    let mut k = from;
    for _ in 0..n {
        if k == stop {
            return false;
        }
        if is_unpaired(n, marks, k) {
            return true;
        }
        k = next_of(links, sh, k);
    }
    false
}

// Some edge has exactly one half between k and its mate.
// Not inlined: the marks would lie on the stack for the whole take-down, below the check at its head too.
#[inline(never)]
pub fn crossed(links: &[u16], sh: Shape, k: usize) -> bool
    requires { (Small sh) × (k < 65536) }
    ensures { result ≡ inversion.crossed sh links.now k }
{
    let mut marks = [0u8; MARK_PLACES];
    let from = next_of(links, sh, k);
    let stop = mate_of(k);
    let n = 2 * sh.edges as usize;
    mark_run(links, sh, n, from, stop, &mut marks);
    any_unpaired(links, sh, n, from, stop, &marks)
}
