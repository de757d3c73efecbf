// The map: a clock, entries by key, and removals that wait. The Rust's map.rs, on arrays with a count, by value.
#![tactic(auto)]

mod changes;

use clock::Clock;
use entries::{Entries, Update};
use removals::{Removal, Waiting};

#[derive(Clone, Copy)]
pub struct Map {
    pub clock: Clock,
    pub entries: Entries,
    pub waiting: Waiting,
}

// An operation: where `up` is set the update, else the removal; the other holds zeros.
#[derive(Clone, Copy)]
pub struct Op {
    pub up: bool,
    pub removal: Removal,
    pub update: Update,
}
