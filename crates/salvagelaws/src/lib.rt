// Laws only: what salvage gives back of a damaged image.
#![tactic(auto)]
