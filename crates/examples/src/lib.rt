// 01's worked examples are one table, specs/Table.antt; the checks by computation another, specs/Checks.antt.
#![tactic(auto)]
