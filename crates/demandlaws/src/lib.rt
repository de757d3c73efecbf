// Demands 1 and 2, call by call, in the demands' own words: laws only, this crate has no code.
#![tactic(auto)]
