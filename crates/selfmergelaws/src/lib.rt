// A map merged with itself, and two updates that come in either order: laws only, this crate has no code.
#![tactic(auto)]
