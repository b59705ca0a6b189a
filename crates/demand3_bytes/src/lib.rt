// Demand 3 of the records in the output's bytes, as theorems at the entries: see specs/.
#![tactic(auto)]
