// What the calls with one output have to write, their room aside: see specs/.
#![tactic(auto)]
