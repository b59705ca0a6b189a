// What each call answers, and the demands about it: definitions and theorems, no code.
#![tactic(auto)]
