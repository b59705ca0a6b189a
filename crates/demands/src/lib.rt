// Every demand and every request on one page, each a citation: see specs/Demands.antt.
#![tactic(auto)]
