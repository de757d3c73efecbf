// Definitions only: salvage of a damaged image, step by step.
#![tactic(auto)]
