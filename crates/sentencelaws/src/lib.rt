// Number 3 in the sentences of document 01: laws only, this crate has no code.
#![tactic(auto)]
