// The least free number of each kind, 0 where none is free. Nothing has to be known of the table.
ghost use Rattle.std.specs.Prelude.{◌≡◌, ℕ, ◌<◌, ◌≤◌};
ghost use Rattle.bounds.specs.Bounds.{most_items};
ghost use Rattle.layout.specs.Small.{Small};
ghost use Rattle.takedown.specs.Inversion.{free_face, free_loop, free_edge};

use crate::seek::seek;
use euler::scans::least_naming_one;
use layout::column::{faces_of_loops, solids_of_faces};
use layout::columns::start_of;
use layout::shape::Shape;

// The least free face.
pub fn free_face(links: &[u16], sh: Shape) -> usize
    requires { Small sh }
    ensures { (result ≡ free_face sh links.now) × (result < 65536) }
{
    least_naming_one(links, solids_of_faces(sh), 0)
}

// The least free loop.
pub fn free_loop(links: &[u16], sh: Shape) -> usize
    requires { Small sh }
    ensures { (result ≡ free_loop sh links.now) × (result < 65536) }
{
    least_naming_one(links, faces_of_loops(sh), 0)
}

// The least free edge.
pub fn free_edge(links: &[u16], sh: Shape) -> usize
    requires { Small sh }
    ensures { (result ≡ free_edge sh links.now) × (result ≤ most_items) }
{
    seek(1, sh.edges as usize, |e| start_of(links, sh, 2 * e) == 0)
}
