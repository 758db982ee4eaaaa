// Document 01 as definitions, in specs/. There is no code here: the contracts of the crates above cite these definitions.
#![tactic(auto)]
