// Linear passes over the links of a table: what each label is named by, and whether the half-edges of each loop and of
// each vertex form one cycle.
//
// Nothing has to be known of a table before it is looked at: a number read from it that is past the end of a pass's
// array reads 0 there and is not stored, as in `layout`.

#![tactic(auto)]

pub mod cycles;
pub mod labels;
