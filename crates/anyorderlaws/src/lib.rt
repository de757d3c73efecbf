// The order in which removals arrive does not matter: laws only, this crate has no code.
#![tactic(auto)]
