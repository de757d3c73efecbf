// What the controllers that are out there make of today's images, and today's of theirs: laws only, this crate has no code.
#![tactic(auto)]
