// Laws only: what the readers promise of an accepted image.
#![tactic(auto)]
