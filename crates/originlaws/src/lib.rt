// Images of before there were origins: they are good, mean the same map or operation with origin 0, and are written back as they were. Laws
// only, this crate has no code.
#![tactic(auto)]
