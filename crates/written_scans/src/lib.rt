// That what is written from change records is read as those records: see specs/.
#![tactic(auto)]
