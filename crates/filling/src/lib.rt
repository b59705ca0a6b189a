// How far a call has come that fills one output is definitions and laws: see specs/.
#![tactic(auto)]
