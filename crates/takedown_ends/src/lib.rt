// What the take-down carries from turn to turn, so that most searches go on from a lower end: how a turn moves these.

#![tactic(auto)]

pub mod moves;
pub mod tips;
pub mod walks;
