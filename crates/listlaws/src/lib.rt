// Laws on lists that every layer cites: this crate has no code.
#![tactic(auto)]
