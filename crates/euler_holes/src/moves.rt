// Faces pass to another solid: all faces of one solid, or those of one shell.
ghost use Rattle.std.specs.Prelude.{◌≡◌, ℕ, ◌<◌, ◌≤◌};
ghost use Rattle.bounds.specs.Bounds.{most_items};
ghost use Rattle.euler.specs.FaceOperators.{move_faces};
ghost use Rattle.check_shells.specs.Forest.{Forest};
ghost use Rattle.euler_holes.specs.Moves.{join_solids, move_shell};

use bounds::ITEM_PLACES;
use check_shells::faces::same_shell;
use layout::columns::{face_solid, set_face_solid, set_solid_used};
use layout::shape::Shape;

// All faces of solid s pass to solid t. Where the two are one, none is looked at.
fn move_faces(links: &mut [u16], sh: Shape, s: usize, t: usize)
    requires { (sh.faces ≤ most_items) × (t < 65536) }
    ensures { links.new ≡ move_faces sh links.old s t }
{
    if s == t {
        return;
    }
    for k in 0..sh.faces as usize {
        let old = face_solid(links, sh, k + 1);
        let new = if old == s { t } else { old };
        set_face_solid(links, sh, k + 1, new);
    }
}

// All faces of solid s pass to solid t, and s is killed. Where the two are one, its mark is cleared and set again.
pub fn join_solids(links: &mut [u16], sh: Shape, s: usize, t: usize)
    requires { (sh.faces ≤ most_items) × (s < 65536) × (t < 65536) }
    ensures { links.new ≡ join_solids sh links.old s t }
{
    move_faces(links, sh, s, t);
    set_solid_used(links, sh, s, 0);
    set_solid_used(links, sh, t, 1);
}

// All faces with the root of face f pass to solid s.
pub fn move_shell(links: &mut [u16], sh: Shape, parent: &mut [u16; ITEM_PLACES], f: usize, s: usize)
    requires faces_le_most_items { (sh.faces ≤ most_items) × (s < 65536) }
    requires forest { Forest parent.old }
    ensures { links.new ≡ move_shell sh links.old parent.old f s }
{
    for k in 0..sh.faces as usize {
        let old = face_solid(links, sh, k + 1);
        let here = same_shell(parent, sh, f, k + 1);
        let new = if here { s } else { old };
        set_face_solid(links, sh, k + 1, new);
    }
}
