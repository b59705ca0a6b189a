// That the entries read what is written as the change records: see specs/.
#![tactic(auto)]
