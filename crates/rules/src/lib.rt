// 01 "Map" stated once, over what an entry holds and how a map is stored: definitions only, this crate has no code.
#![tactic(auto)]
