// The least half-edge that is followed by its mate: one of the tips, where edges were taken out, or else from the
// lower end on.
ghost use Rattle.std.specs.Prelude.{◌≡◌, ℕ, ◌<◌, ◌≤◌};
ghost use Rattle.layout.specs.Small.{Small};
ghost use Rattle.takedown.specs.Swift.{tipped, least_tip, spur_from};
ghost use Rattle.takedown_ends.specs.InWords.{InWords};

use layout::shape::Shape;
use takedown::ends::Ends;
use takedown_search::seek::seek;
use takedown_search::tests::is_spur;

// The lesser of `best` and the tip, if the tip is a spur below the lower end.
fn with_tip(links: &[u16], sh: Shape, e: Ends, tip: usize, best: usize) -> usize
    requires { tip < 65536 }
    ensures { (result ≡ tipped sh links.now e tip best) × (result ≤ best) }
{
    let spur = is_spur(links, sh, e.solid, tip);
    if (tip < e.spur) & spur {
        return tip.min(best);
    }
    best
}

// The least tip that is one, or the number behind the last half-edge.
fn least_tip(links: &[u16], sh: Shape, e: Ends) -> usize
    requires { (Small sh) × (InWords e) }
    ensures { (result ≡ least_tip sh links.now e) × (result < 65536) }
{
    let past = 2 * sh.edges as usize + 1;
    let a = with_tip(links, sh, e, e.tip4, past);
    let b = with_tip(links, sh, e, e.tip3, a);
    let c = with_tip(links, sh, e, e.tip2, b);
    with_tip(links, sh, e, e.tip, c)
}

// The least spur, 0 where there is none.
pub fn spur_from(links: &[u16], sh: Shape, e: Ends) -> usize
    requires { (Small sh) × (InWords e) }
    ensures { (result ≡ spur_from sh links.now e) × (result < 65536) }
{
    let n = 2 * sh.edges as usize;
    let t = least_tip(links, sh, e);
    if t == n + 1 {
        return seek(e.spur, n, |k| is_spur(links, sh, e.solid, k));
    }
    t
}
