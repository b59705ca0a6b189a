// How much room is always enough for each call: see specs/.
#![tactic(auto)]
