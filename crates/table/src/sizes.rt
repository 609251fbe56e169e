// Refusal 1: a capacity that is not 1 to 4,096, or a slice that is not exactly as long as the capacities say.
ghost use Rattle.std.specs.Prelude.{◌≡◌};
ghost use Rattle.table.specs.Sizes.{capacity, sizes_fit, table_fits};

use bounds::MOST_ITEMS;
use layout::points::POINT_WIDTH;
use layout::shape::{Capacities, capacities_of, links_length, shape_from};

// n is 1 to 4,096.
fn is_capacity(n: u16) -> bool
    ensures { result ≡ capacity n }
{
    (1 <= n) & (n as usize <= MOST_ITEMS)
}

// So many words and coordinates are the links and points of a table of these capacities.
pub fn sizes_fit(words: usize, coordinates: usize, c: Capacities) -> bool
    ensures { result ≡ sizes_fit words coordinates c.solids c.faces c.loops c.edges c.vertices }
{
    is_capacity(c.solids)
        & is_capacity(c.faces)
        & is_capacity(c.loops)
        & is_capacity(c.edges)
        & is_capacity(c.vertices)
        & (words == links_length(shape_from(c)))
        & (coordinates == POINT_WIDTH * c.vertices as usize)
}

// The two slices fit the capacities that the first five words say.
pub fn table_fits(links: &[u16], points: &[i32]) -> bool
    ensures { result ≡ table_fits links.now points.now }
{
    sizes_fit(links.len(), points.len(), capacities_of(links))
}
