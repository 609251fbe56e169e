// What a turn of the take-down looks for: the least item from a lower end on that passes a test, and the least free
// numbers.

#![tactic(auto)]

pub mod free;
pub mod seek;
pub mod tests;
