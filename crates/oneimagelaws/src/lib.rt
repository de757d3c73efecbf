// Every map has one image: laws only, this crate has no code.
#![tactic(auto)]
