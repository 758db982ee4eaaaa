// What the calls of `takes_runs` print in all, by their contracts alone, is what document 01's program prints for the whole input.
#![tactic(auto)]
