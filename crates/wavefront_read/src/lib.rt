// Mathematics only: a reader of OBJ text, and what it finds; see specs/.

#![tactic(auto)]
