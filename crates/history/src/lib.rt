// Demand 3 over the rules: the statement in specs/, the proof in proofs/. There is no code here.
#![tactic(auto)]
