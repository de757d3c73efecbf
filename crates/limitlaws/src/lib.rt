// Sleds of two sizes: what a reader with smaller limits and one with larger limits make of one image. Laws only, this crate has no code.
#![tactic(auto)]
