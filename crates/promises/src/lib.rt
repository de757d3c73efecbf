// What each call of castribba.h promises, and that it leaves nothing open: laws only, this crate has no code.
#![tactic(auto)]
