// The operators that make and kill an edge with a face on one side: mef and kef.
// For each: whether its condition holds (`fits`), what it does to the links but for the half-edges that vertex words
// count (`links`; the words are in crate `euler_valence`), and the operator that undoes it (`inverse`).

#![tactic(auto)]

pub mod mef_kef;
