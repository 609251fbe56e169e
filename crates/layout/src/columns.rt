// The columns of a table: one word of each kind of record by name. The places come from `fields`.
//
// Kept: a function for each field, and not one over a field's name. Each says the document's word where it is called,
// and has its own definition in the specs; what they share is in `cell` and `put_cell`.
ghost use Rattle.std.specs.Prelude.{◌≡◌, ℕ, ◌<◌, ◌≤◌};
ghost use Rattle.layout.specs.Layout.{solid_used, set_solid_used, face_solid, set_face_solid, face_outer};
ghost use Rattle.layout.specs.Layout.{set_face_outer};
ghost use Rattle.layout.specs.Layout.{loop_face, set_loop_face, loop_first, set_loop_first, loop_isolated};
ghost use Rattle.layout.specs.Layout.{set_loop_isolated, start_of, set_start, loop_of, set_loop, next_of, set_next};
ghost use Rattle.layout.specs.Layout.{prev_of, set_prev, vertex_used, set_vertex_used, side};

use crate::cells::{cell, put_cell};
use crate::fields::{
    FACE_OUTER, FACE_SOLID, FACE_WIDTH, HALF_LOOP, HALF_NEXT, HALF_PREV, HALF_START, HALF_WIDTH,
    HEAD, LOOP_FACE, LOOP_FIRST, LOOP_ISOLATED, LOOP_WIDTH, SOLID_USED, SOLID_WIDTH, VERTEX_USED,
    VERTEX_WIDTH,
};
use crate::shape::Shape;

// 1 where solid n is in use.
pub fn solid_used(links: &[u16], sh: Shape, n: usize) -> usize
    requires { n ≤ 65536 }
    ensures { (result ≡ solid_used sh links.now n) × (result < 65536) }
{
    cell(links, HEAD, SOLID_WIDTH, SOLID_USED, n)
}

pub fn set_solid_used(links: &mut [u16], sh: Shape, n: usize, v: usize)
    requires { (n ≤ 65536) × (v < 65536) }
    ensures { links.new ≡ set_solid_used sh links.old n v }
{
    put_cell(links, HEAD, SOLID_WIDTH, SOLID_USED, n, v);
}

// The solid of face n; 0 where the face is free.
pub fn face_solid(links: &[u16], sh: Shape, n: usize) -> usize
    requires { n ≤ 65536 }
    ensures { (result ≡ face_solid sh links.now n) × (result < 65536) }
{
    cell(links, sh.face0, FACE_WIDTH, FACE_SOLID, n)
}

pub fn set_face_solid(links: &mut [u16], sh: Shape, n: usize, v: usize)
    requires { (n ≤ 65536) × (v < 65536) }
    ensures { links.new ≡ set_face_solid sh links.old n v }
{
    put_cell(links, sh.face0, FACE_WIDTH, FACE_SOLID, n, v);
}

// The outer loop of face n.
pub fn face_outer(links: &[u16], sh: Shape, n: usize) -> usize
    requires { n ≤ 65536 }
    ensures { (result ≡ face_outer sh links.now n) × (result < 65536) }
{
    cell(links, sh.face0, FACE_WIDTH, FACE_OUTER, n)
}

pub fn set_face_outer(links: &mut [u16], sh: Shape, n: usize, v: usize)
    requires { (n ≤ 65536) × (v < 65536) }
    ensures { links.new ≡ set_face_outer sh links.old n v }
{
    put_cell(links, sh.face0, FACE_WIDTH, FACE_OUTER, n, v);
}

// The face of loop n; 0 where the loop is free.
pub fn loop_face(links: &[u16], sh: Shape, n: usize) -> usize
    requires { n ≤ 65536 }
    ensures { (result ≡ loop_face sh links.now n) × (result < 65536) }
{
    cell(links, sh.loop0, LOOP_WIDTH, LOOP_FACE, n)
}

pub fn set_loop_face(links: &mut [u16], sh: Shape, n: usize, v: usize)
    requires { (n ≤ 65536) × (v < 65536) }
    ensures { links.new ≡ set_loop_face sh links.old n v }
{
    put_cell(links, sh.loop0, LOOP_WIDTH, LOOP_FACE, n, v);
}

// The first half-edge of loop n; 0 where it is isolated.
pub fn loop_first(links: &[u16], sh: Shape, n: usize) -> usize
    requires { n ≤ 65536 }
    ensures { (result ≡ loop_first sh links.now n) × (result < 65536) }
{
    cell(links, sh.loop0, LOOP_WIDTH, LOOP_FIRST, n)
}

pub fn set_loop_first(links: &mut [u16], sh: Shape, n: usize, v: usize)
    requires { (n ≤ 65536) × (v < 65536) }
    ensures { links.new ≡ set_loop_first sh links.old n v }
{
    put_cell(links, sh.loop0, LOOP_WIDTH, LOOP_FIRST, n, v);
}

// The isolated vertex of loop n (document 01: lone vertex); 0 where it has half-edges.
pub fn loop_isolated(links: &[u16], sh: Shape, n: usize) -> usize
    requires { n ≤ 65536 }
    ensures { (result ≡ loop_isolated sh links.now n) × (result < 65536) }
{
    cell(links, sh.loop0, LOOP_WIDTH, LOOP_ISOLATED, n)
}

pub fn set_loop_isolated(links: &mut [u16], sh: Shape, n: usize, v: usize)
    requires { (n ≤ 65536) × (v < 65536) }
    ensures { links.new ≡ set_loop_isolated sh links.old n v }
{
    put_cell(links, sh.loop0, LOOP_WIDTH, LOOP_ISOLATED, n, v);
}

// The start vertex of half-edge n; 0 where it is free.
pub fn start_of(links: &[u16], sh: Shape, n: usize) -> usize
    requires { n ≤ 65536 }
    ensures { (result ≡ start_of sh links.now n) × (result < 65536) }
{
    cell(links, sh.half0, HALF_WIDTH, HALF_START, n)
}

pub fn set_start(links: &mut [u16], sh: Shape, n: usize, v: usize)
    requires { (n ≤ 65536) × (v < 65536) }
    ensures { links.new ≡ set_start sh links.old n v }
{
    put_cell(links, sh.half0, HALF_WIDTH, HALF_START, n, v);
}

// The loop of half-edge n.
pub fn loop_of(links: &[u16], sh: Shape, n: usize) -> usize
    requires { n ≤ 65536 }
    ensures { (result ≡ loop_of sh links.now n) × (result < 65536) }
{
    cell(links, sh.half0, HALF_WIDTH, HALF_LOOP, n)
}

pub fn set_loop(links: &mut [u16], sh: Shape, n: usize, v: usize)
    requires { (n ≤ 65536) × (v < 65536) }
    ensures { links.new ≡ set_loop sh links.old n v }
{
    put_cell(links, sh.half0, HALF_WIDTH, HALF_LOOP, n, v);
}

// The half-edge after n in its loop.
pub fn next_of(links: &[u16], sh: Shape, n: usize) -> usize
    requires { n ≤ 65536 }
    ensures { (result ≡ next_of sh links.now n) × (result < 65536) }
{
    cell(links, sh.half0, HALF_WIDTH, HALF_NEXT, n)
}

pub fn set_next(links: &mut [u16], sh: Shape, n: usize, v: usize)
    requires { (n ≤ 65536) × (v < 65536) }
    ensures { links.new ≡ set_next sh links.old n v }
{
    put_cell(links, sh.half0, HALF_WIDTH, HALF_NEXT, n, v);
}

// The half-edge before n in its loop.
pub fn prev_of(links: &[u16], sh: Shape, n: usize) -> usize
    requires { n ≤ 65536 }
    ensures { (result ≡ prev_of sh links.now n) × (result < 65536) }
{
    cell(links, sh.half0, HALF_WIDTH, HALF_PREV, n)
}

pub fn set_prev(links: &mut [u16], sh: Shape, n: usize, v: usize)
    requires { (n ≤ 65536) × (v < 65536) }
    ensures { links.new ≡ set_prev sh links.old n v }
{
    put_cell(links, sh.half0, HALF_WIDTH, HALF_PREV, n, v);
}

// The vertex word: 1 plus the number of half-edges that start at vertex n; 0 where it is free.
pub fn vertex_used(links: &[u16], sh: Shape, n: usize) -> usize
    requires { n ≤ 65536 }
    ensures { (result ≡ vertex_used sh links.now n) × (result < 65536) }
{
    cell(links, sh.vertex0, VERTEX_WIDTH, VERTEX_USED, n)
}

pub fn set_vertex_used(links: &mut [u16], sh: Shape, n: usize, v: usize)
    requires { (n ≤ 65536) × (v < 65536) }
    ensures { links.new ≡ set_vertex_used sh links.old n v }
{
    put_cell(links, sh.vertex0, VERTEX_WIDTH, VERTEX_USED, n, v);
}

// The face that half-edge n lies in.
pub fn side_of(links: &[u16], sh: Shape, n: usize) -> usize
    requires { n ≤ 65536 }
    ensures { (result ≡ side sh links.now n) × (result < 65536) }
{
    loop_face(links, sh, loop_of(links, sh, n))
}
