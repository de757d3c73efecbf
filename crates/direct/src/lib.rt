// Questions put to an image where it lies: a key read, an operation and a merge validated.
#![tactic(auto)]

pub mod reading;
pub mod validating;
