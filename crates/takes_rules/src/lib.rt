// Document 01's program `takes` as definitions, in specs/. There is no code here: `takes_lines`, `takes_runs` and `takes_whole` cite these definitions.
#![tactic(auto)]
