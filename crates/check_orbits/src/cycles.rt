// Whether the half-edges of each label, a loop or a vertex, form one cycle: from each label's representative the walk
// marks what it meets and stops at the first half-edge that is marked, so that all walks together take as many steps as
// there are half-edges.
ghost use Rattle.std.specs.Prelude.{◌≡◌, ℕ, not, ◌||◌, ◌*◌, ◌<◌, ◌≤◌, length, get_or, set};
ghost use Rattle.layout.specs.Items.{half_used};
ghost use Rattle.laws.specs.Marks.{marked, mark_from, mark_rep, mark_to, all_marked};
ghost use Rattle.bounds.specs.Bounds.{half_places, most_halves, most_items};
ghost use Rattle.check_orbits.specs.Cycles.{entry_of, Steps, Follows, one_cycle_by};

use bounds::{HALF_PLACES, ITEM_PLACES};
use layout::columns::start_of;
use layout::shape::Shape;
use marking::put_mark;
use searching::all_pass;

// The mark of half-edge k, and 0 past the end.
fn mark_at(marks: &[u8; HALF_PLACES], k: usize) -> u8
    requires { length marks.now ≡ half_places }
    ensures { result ≡ get_or marks.now k 0 }
{
    if k < HALF_PLACES {
        return marks[k];
    }
    0
}

// From k on, half-edges marked up to the first that is so already; `fuel` bounds the steps in a table that is not
// sound.
fn mark_from<F: Fn(usize) -> usize>(
    step: &F,
    from: usize,
    fuel: usize,
    marks: &mut [u8; HALF_PLACES],
)
    requires from_lt { (from < 65536) × (length marks.old ≡ half_places) }
    requires steps { Steps (F.pre step.now) (F.post step.now) }
    ensures { (f : ℕ → ℕ) → Follows (F.post step.now) f → marks.new ≡ mark_from f fuel from marks.old }
{
    let mut k = from;
    for _ in 0..fuel {
        let m = mark_at(marks, k);
        if m != 0 {
            return;
        }
        put_mark(marks, k);
        k = step(k);
    }
}

// The same from a label's representative; 0 is none.
fn mark_rep<F: Fn(usize) -> usize>(step: &F, r: u16, fuel: usize, marks: &mut [u8; HALF_PLACES])
    requires long { length marks.old ≡ half_places }
    requires steps { Steps (F.pre step.now) (F.post step.now) }
    ensures { (f : ℕ → ℕ) → Follows (F.post step.now) f → marks.new ≡ mark_rep f fuel r marks.old }
{
    if r == 0 {
        return;
    }
    mark_from(step, r as usize, fuel, marks);
}

// The walks from the representatives of the labels 1, 2 and so on.
fn mark_all<F: Fn(usize) -> usize>(
    step: &F,
    reps: &[u16; ITEM_PLACES],
    labels: usize,
    fuel: usize,
    marks: &mut [u8; HALF_PLACES],
)
    requires labels_le { (labels ≤ most_items) × (length marks.old ≡ half_places) }
    requires steps { Steps (F.pre step.now) (F.post step.now) }
    ensures { (f : ℕ → ℕ) → Follows (F.post step.now) f
        → marks.new ≡ mark_to f fuel (entry_of reps.now) labels marks.old }
{
    for l in 1..=labels {
        mark_rep(step, reps[l], fuel, marks);
    }
}

// Half-edge k is free or marked.
fn half_marked(links: &[u16], sh: Shape, marks: &[u8; HALF_PLACES], k: usize) -> bool
    requires { k ≤ most_halves }
    ensures { result ≡ (not (half_used sh links.now k) || marked marks.now k) }
{
    let used = start_of(links, sh, k) != 0;
    let m = marks[k];
    !used | (m != 0)
}

// All half-edges in use are marked.
pub fn all_marked(links: &[u16], sh: Shape, marks: &[u8; HALF_PLACES]) -> bool
    requires { sh.edges ≤ most_items }
    ensures { result ≡ all_marked (2 * sh.edges) (half_used sh links.now) marks.now }
{
    all_pass(
        2 * (sh.edges as usize),
        |k| half_marked(links, sh, marks, k),
    )
}

// Each half-edge in use is met along `step` from the representative of one of the labels 1 to `labels`. In a table in
// which steps keep labels and can be undone, this is one cycle for each label.
// Not inlined: rules 4 and 5 each have an instance, and in one frame their marks would lie on the stack side by side.
#[inline(never)]
pub fn one_cycle_each<F: Fn(usize) -> usize>(
    links: &[u16],
    sh: Shape,
    step: F,
    reps: &[u16; ITEM_PLACES],
    labels: usize,
) -> bool
    requires edges_le { (sh.edges ≤ most_items) × (labels ≤ most_items) }
    requires steps { Steps (F.pre step) (F.post step) }
    ensures { (f : ℕ → ℕ) → Follows (F.post step) f → result ≡ one_cycle_by sh links.now f reps.now labels }
{
    let mut marks = [0u8; HALF_PLACES];
    mark_all(&step, reps, labels, 2 * (sh.edges as usize), &mut marks);
    all_marked(links, sh, &marks)
}
