// Maps within maps: 01's rules at every level, and the laws that hold at each. Laws only, this crate has no code.
#![tactic(auto)]
