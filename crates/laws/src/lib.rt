// Mathematics only: the definitions and theorems stand in specs/.

#![tactic(auto)]
