// Lists and maps as the rules speak of them, in specs/: definitions and their laws. There is no code here.
#![tactic(auto)]
