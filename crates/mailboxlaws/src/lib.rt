// An image that goes through the mailbox in pieces: laws only, this crate has no code.
#![tactic(auto)]
