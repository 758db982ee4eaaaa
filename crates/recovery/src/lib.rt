// Demand 3 of the calls: what `history` proves of the rules, carried to areas by the contracts of `fresh`, `replay` and `merge`.
#![tactic(auto)]
