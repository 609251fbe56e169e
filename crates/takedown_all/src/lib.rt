// All turns of the take-down one after the other, and the way back where one of them lacks a number.

#![tactic(auto)]

pub mod back;
pub mod turns;
