// The faces of a table that chains of faces link, neighbours sharing an edge.
ghost use Rattle.std.specs.Prelude.{◌≡◌, ℕ, ◌+◌, ◌≤◌, ◌<◌, length, get_or};
ghost use Rattle.layout.specs.Layout.{side};
ghost use Rattle.laws.specs.UnionFind.{SameRoots};
ghost use Rattle.bounds.specs.Bounds.{item_places, most_items};
ghost use Rattle.check_shells.specs.Forest.{Forest};
ghost use Rattle.check_shells.specs.Shells.{side_as, within, joins, faces_linked_as, face_whole, shells_whole};
ghost use Rattle.check_shells.specs.Shells.{one_root, Shells, Joined};

use crate::forest::{find_root, separate, unite};
use bounds::ITEM_PLACES;
use layout::columns::{face_solid, loop_face, loop_of, start_of};
use layout::shape::Shape;

// The face that half-edge k lies in, once loop l lies in face t. An operator asks this before it stores anything. With
// l = t = 0 it is the table as it is.
fn side_as(links: &[u16], sh: Shape, l: usize, t: usize, k: usize) -> usize
    requires { (t < 65536) × (k ≤ 65536) }
    ensures { (result ≡ side_as sh links.now l t k) × (result < 65536) }
{
    let owner = loop_of(links, sh, k);
    if owner == l {
        return t;
    }
    loop_face(links, sh, owner)
}

// f is a number from 1 to n.
fn is_within(n: usize, f: usize) -> bool
    ensures { result ≡ within n f }
{
    (1 <= f) & (f <= n)
}

// Edge e is in use and has a face on each side.
fn edge_joins(links: &[u16], sh: Shape, l: usize, t: usize, e: usize) -> bool
    requires { (t < 65536) × (1 ≤ e) × (e ≤ most_items) }
    ensures { result ≡ joins sh links.now (side_as sh links.now l t) e }
{
    let n = sh.faces as usize;
    let start = start_of(links, sh, 2 * e);
    let a = side_as(links, sh, l, t, 2 * e - 1);
    let b = side_as(links, sh, l, t, 2 * e);
    (start != 0) & is_within(n, a) & is_within(n, b)
}

// The edges 1 to k have been; the faces on the two sides of the next one are united, if it joins faces.
fn link_edge(
    links: &[u16],
    sh: Shape,
    l: usize,
    t: usize,
    k: usize,
    parent: &mut [u16; ITEM_PLACES],
)
    requires faces_le_most_items { (sh.faces ≤ most_items) × (t < 65536) × (k < most_items) }
    requires joined { Joined sh links.now (side_as sh links.now l t) k parent.old }
    ensures { Joined sh links.now (side_as sh links.now l t) (k + 1)
        parent.new }
{
    let e = k + 1;
    let here = edge_joins(links, sh, l, t, e);
    if !here {
        return;
    }
    let a = side_as(links, sh, l, t, 2 * e - 1);
    let b = side_as(links, sh, l, t, 2 * e);
    unite(parent, a, b);
}

// Makes of `parent` a forest whose classes are the shells of the table once loop l lies in face t: two faces have one
// root just if they are linked.
pub fn link_faces(links: &[u16], sh: Shape, l: usize, t: usize, parent: &mut [u16; ITEM_PLACES])
    requires faces_le_most_items { (sh.faces ≤ most_items) × (sh.edges ≤ most_items) × (t < 65536) }
    requires parent_len { length parent.old ≡ item_places }
    ensures { Shells sh links.now (side_as sh links.now l t) parent.new }
{
    separate(parent);
    for k in 0..sh.edges as usize {
        link_edge(links, sh, l, t, k, parent);
    }
}

// f and g are faces that have one root; anything else is no face and has no shell. Paths get shorter, roots stay.
pub fn same_shell(parent: &mut [u16; ITEM_PLACES], sh: Shape, f: usize, g: usize) -> bool
    requires faces_le_most_items { sh.faces ≤ most_items }
    requires forest { Forest parent.old }
    ensures { (result ≡ one_root sh.faces parent.old f g)
        × SameRoots parent.old parent.new }
{
    let n = sh.faces as usize;
    let both = is_within(n, f) & is_within(n, g);
    if !both {
        return false;
    }
    let a = find_root(parent, f);
    let b = find_root(parent, g);
    a == b
}

// f and g are faces that a chain of faces links once loop l lies in face t. For more than one question link once, and
// ask `same_shell`.
pub fn linked_faces(links: &[u16], sh: Shape, l: usize, t: usize, f: usize, g: usize) -> bool
    requires { (sh.faces ≤ most_items) × (sh.edges ≤ most_items) × (t < 65536) }
    ensures { result ≡ faces_linked_as sh links.now l t f g }
{
    let mut parent = [0u16; ITEM_PLACES];
    link_faces(links, sh, l, t, &mut parent);
    same_shell(&mut parent, sh, f, g)
}

// The face that leads solid s; 0 past the end.
fn leader_of(leaders: &[u16; ITEM_PLACES], s: usize) -> usize
    requires { length leaders.now ≡ item_places }
    ensures { result ≡ get_or leaders.now s 0 }
{
    if s < ITEM_PLACES {
        return usize::from(leaders[s]);
    }
    0
}

// Face f is free or linked to the face that leads its solid.
fn face_whole(
    links: &[u16],
    sh: Shape,
    leaders: &[u16; ITEM_PLACES],
    f: usize,
    parent: &mut [u16; ITEM_PLACES],
) -> bool
    requires faces_le_most_items { (sh.faces ≤ most_items) × (f ≤ most_items) × (length leaders.now ≡ item_places) }
    requires shells { Shells sh links.now (side sh links.now) parent.old }
    ensures { (result ≡ face_whole sh links.now leaders.now f)
        × Shells sh links.now (side sh links.now) parent.new }
{
    let s = face_solid(links, sh, f);
    if s == 0 {
        return true;
    }
    let g = leader_of(leaders, s);
    same_shell(parent, sh, g, f)
}

// Each face is free or linked to the face that leads its solid. With the least face of each solid for its leader this
// says that each solid is one shell.
pub fn shells_whole(links: &[u16], sh: Shape, leaders: &[u16; ITEM_PLACES]) -> bool
    requires { (sh.faces ≤ most_items) × (sh.edges ≤ most_items) × (length leaders.now ≡ item_places) }
    ensures { result ≡ shells_whole sh links.now leaders.now }
{
    let mut parent = [0u16; ITEM_PLACES];
    link_faces(links, sh, 0, 0, &mut parent);
    for k in 0..sh.faces as usize {
        if !face_whole(links, sh, leaders, k + 1, &mut parent) {
            return false;
        }
    }
    true
}
