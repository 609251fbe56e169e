// The operators that kill and make an edge inside one loop, with a ring split off: kemr and mekr.
// For each: whether its condition holds (`fits`), what it does to the links but for the half-edges that vertex words
// count (`links`; the words are in crate `euler_valence`), and the operator that undoes it (`inverse`).

#![tactic(auto)]

pub mod kemr_mekr;
