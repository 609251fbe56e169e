// The six rules of a sound table, each looked at only when those before it hold.
ghost use Rattle.std.specs.Prelude.{true, ◌≡◌, ℕ, ◌*◌, ◌<◌};
ghost use Rattle.laws.specs.Search.{all_to};
ghost use Rattle.check_items.specs.Rules.{rule1, rule2, rule3, rule4, vertex_either, rule5, rule6, broken_rule};
ghost use Rattle.check_orbits.specs.Labels.{blank, least_naming};
ghost use Rattle.check_orbits.specs.Cycles.{one_cycle_each};
ghost use Rattle.check_rules.specs.RuleLaws.{Lower};
ghost use Rattle.layout.specs.Layout.{start_of};
ghost use Rattle.layout.specs.Small.{Small};
ghost use Rattle.refusals.specs.Numbers.{broken_in};

use crate::labels::{solid_names, vertex_either};
use bounds::ITEM_PLACES;
use check_items::joins::{first_names, half_links, half_sides};
use check_items::names::{face_names, half_names, loop_either, loop_names};
use check_items::ranges::{face_range, half_range, loop_range, solid_range, vertex_range};
use check_orbits::cycles::one_cycle_each;
use check_orbits::labels::{least_naming, loop_firsts, tally_naming};
use check_shells::faces::shells_whole;
use layout::column::{isolated_of_loops, solids_of_faces, starts_of_halves};
use layout::columns::next_of;
use layout::mates::mate_of;
use layout::shape::Shape;
use refusals::{Rule, ensure};
use searching::all_pass;

// The marks of solids, numbers and coordinates are in range; free records are zero; both halves of an edge are in use
// or neither.
fn rule_1(links: &[u16], points: &[i32], sh: Shape) -> bool
    requires { Small sh }
    ensures { result ≡ rule1 sh links.now points.now }
{
    all_pass(sh.solids as usize, |n| solid_range(links, sh, n))
        & all_pass(sh.faces as usize, |n| face_range(links, sh, n))
        & all_pass(sh.loops as usize, |n| loop_range(links, sh, n))
        & all_pass(2 * (sh.edges as usize), |n| half_range(links, sh, n))
        & all_pass(sh.vertices as usize, |n| vertex_range(links, points, sh, n))
}

// Every number held names an item in use; a face's outer loop names that face; each solid in use has a face.
// Not inlined, as the others here that have an array: in one frame these would lie on the stack side by side.
#[inline(never)]
fn rule_2(links: &[u16], sh: Shape) -> bool
    requires { Small sh }
    ensures { result ≡ rule2 sh links.now }
{
    let mut leaders = [0u16; ITEM_PLACES];
    least_naming(links, solids_of_faces(sh), &mut leaders);
    all_pass(sh.faces as usize, |n| face_names(links, sh, n))
        & all_pass(sh.loops as usize, |n| loop_names(links, sh, n))
        & all_pass(2 * (sh.edges as usize), |n| half_names(links, sh, n))
        & all_pass(sh.solids as usize, |n| solid_names(links, sh, &leaders, n))
}

// A loop has either a first half-edge or an isolated vertex, not both.
fn rule_3(links: &[u16], sh: Shape) -> bool
    requires { Small sh }
    ensures { result ≡ rule3 sh links.now }
{
    all_pass(sh.loops as usize, |n| loop_either(links, sh, n))
}

// Half-edges are joined as they should be, and those of a loop form one cycle. The walks begin once next and previous
// are known to undo each other.
#[inline(never)]
fn rule_4(links: &[u16], points: &[i32], sh: Shape) -> bool
    requires { Lower sh links.now points.now }
    ensures { result ≡ rule4 sh links.now }
{
    let halves = all_pass(2 * (sh.edges as usize), |n| half_links(links, sh, n));
    let firsts_named = all_pass(sh.loops as usize, |n| first_names(links, sh, n));
    if !(halves & firsts_named) {
        return false;
    }
    let mut firsts = [0u16; ITEM_PLACES];
    loop_firsts(links, sh, &mut firsts);
    one_cycle_each(
        links,
        sh,
        |k| next_of(links, sh, k),
        &firsts,
        sh.loops as usize,
    )
}

// Each vertex in use has 1 plus the number of half-edges that start there, and is isolated in one loop or starts some.
// (A function of its own: its two arrays and those of `vertex_cycles` are never needed together.)
#[inline(never)]
fn vertices_either(links: &[u16], sh: Shape) -> bool
    requires { Small sh }
    ensures { result ≡ all_to sh.vertices (vertex_either sh links.now) }
{
    let mut isolated = [0u16; ITEM_PLACES];
    tally_naming(links, isolated_of_loops(sh), &mut isolated);
    let mut starts = [0u16; ITEM_PLACES];
    tally_naming(links, starts_of_halves(sh), &mut starts);
    all_pass(
        sh.vertices as usize,
        |n| vertex_either(links, sh, &isolated, &starts, n),
    )
}

// The walks around the vertices, from the least half-edge that starts at each.
#[inline(never)]
fn vertex_cycles(links: &[u16], sh: Shape) -> bool
    requires { Small sh }
    ensures { result ≡ one_cycle_each sh links.now true
        (least_naming (start_of sh links.now) (2 * sh.edges) blank) sh.vertices }
{
    let mut starters = [0u16; ITEM_PLACES];
    least_naming(links, starts_of_halves(sh), &mut starters);
    one_cycle_each(
        links,
        sh,
        |k| next_of(links, sh, mate_of(k)),
        &starters,
        sh.vertices as usize,
    )
}

// A vertex's word counts the half-edges that start there, it is isolated in one loop or starts some, and those that
// start at a vertex form one cycle around it.
fn rule_5(links: &[u16], points: &[i32], sh: Shape) -> bool
    requires lower { Lower sh links.now points.now }
    requires links_value { rule4 sh links.now ≡ true }
    ensures { result ≡ rule5 sh links.now }
{
    vertices_either(links, sh) & vertex_cycles(links, sh)
}

// The faces on an edge's two sides lie in one solid, and each solid's faces are linked.
#[inline(never)]
fn rule_6(links: &[u16], points: &[i32], sh: Shape) -> bool
    requires { Lower sh links.now points.now }
    ensures { result ≡ rule6 sh links.now }
{
    let mut leaders = [0u16; ITEM_PLACES];
    least_naming(links, solids_of_faces(sh), &mut leaders);
    all_pass(2 * (sh.edges as usize), |n| half_sides(links, sh, n))
        & shells_whole(links, sh, &leaders)
}

// The lowest broken rule.
#[tactic(auto, unfolding(check_items::specs::Rules::broken_rule))]
pub fn broken_rule(links: &[u16], points: &[i32], sh: Shape) -> Result<(), Rule>
    requires { Small sh }
    ensures { broken_in result ≡ broken_rule sh links.now points.now }
{
    ensure(rule_1(links, points, sh), Rule::Ranges)?;
    ensure(rule_2(links, sh), Rule::Names)?;
    ensure(rule_3(links, sh), Rule::Either)?;
    ensure(rule_4(links, points, sh), Rule::Joins)?;
    ensure(rule_5(links, points, sh), Rule::Vertices)?;
    ensure(rule_6(links, points, sh), Rule::Shells)
}
