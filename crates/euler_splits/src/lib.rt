// The operators that divide an edge by a vertex and join two edges at one: semv and jekv.
// For each: whether its condition holds (`fits`; semv has none), what it does to the links but for the half-edges that
// vertex words count (`links`; the words are in crate `euler_valence`), and the operator that undoes it (`inverse`).

#![tactic(auto)]

pub mod semv_jekv;
