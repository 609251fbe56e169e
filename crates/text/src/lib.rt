// Mathematics only: numbers in decimal, and texts put into a buffer; see specs/.

#![tactic(auto)]
