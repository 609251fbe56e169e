// One operator of a script or a log: read, admitted, carried out, its inverse logged.

#![tactic(auto)]

pub mod steps;
