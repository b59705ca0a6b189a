// The pages of the calls with one output: what each says, and that no other answer meets it: see specs/.
#![tactic(auto)]
