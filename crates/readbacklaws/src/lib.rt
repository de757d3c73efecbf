// Every answer reads back as the very result: laws only, this crate has no code.
#![tactic(auto)]
