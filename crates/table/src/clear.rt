// Clearing a table: five capacities, and nothing in use.
ghost use Rattle.std.specs.Prelude.{◌≡◌};
ghost use Rattle.table.specs.Clear.{cleared, clear_of, with_capacities};

use crate::sizes::sizes_fit;
use layout::cells::put;
use layout::shape::Capacities;
use refusals::Refusal;

#[repr(C)]
#[derive(Clone, Copy)]
pub struct ClearAnswer {
    pub refusal: u8,
}

// The five capacities in the first five words.
fn put_capacities(links: &mut [u16], c: Capacities)
    ensures { links.new ≡ with_capacities links.old c.solids c.faces c.loops c.edges c.vertices }
{
    put(links, 0, c.solids as usize);
    put(links, 1, c.faces as usize);
    put(links, 2, c.loops as usize);
    put(links, 3, c.edges as usize);
    put(links, 4, c.vertices as usize);
}

// The table of these capacities with nothing in use. Refusal 1 for a capacity that is not 1 to 4,096 or a slice that is
// not as long as they say: nothing is written.
pub fn clear(
    links: &mut [u16],
    points: &mut [i32],
    s: u16,
    f: u16,
    l: u16,
    e: u16,
    v: u16,
) -> ClearAnswer
    ensures { cleared result.refusal links.new points.new
        ≡ clear_of links.old points.old s f l e v }
{
    let capacities = Capacities {
        solids: s,
        faces: f,
        loops: l,
        edges: e,
        vertices: v,
    };
    if !sizes_fit(links.len(), points.len(), capacities) {
        return ClearAnswer {
            refusal: Refusal::Memory.number(),
        };
    }
    links.fill(0);
    put_capacities(links, capacities);
    points.fill(0);
    ClearAnswer { refusal: 0 }
}
