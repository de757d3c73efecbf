// What 01 says of a map's rules for every map, and its examples as widely as they hold: laws only, this crate has no code.
#![tactic(auto)]
