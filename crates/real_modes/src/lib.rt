// Section reading in the two modes of reals, as theorems at the entry: see specs/.
#![tactic(auto)]
