// What merge and join of the rules do, said group by group: definitions and laws in specs/. There is no code here.
#![tactic(auto)]
