// Which faces belong together: the shells of a table, found by union and find in near-linear time.
//
// Nothing is asked of the table but that its capacities are small: an edge with a side that is no face is passed over.

#![tactic(auto)]

pub mod faces;
mod forest;
