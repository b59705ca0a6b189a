// The gathering rules and demand 3 are definitions and theorems: see specs/.
#![tactic(auto)]
