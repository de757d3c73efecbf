// Entries by key: a clock and a register each; and the update of one; on arrays with a count, by value.
#![tactic(auto)]

mod by_key;
mod finished;
mod one_entry;

use clock::{Clock, Dot};
use limits::ENTRIES;
use register::{Register, Value, Wide};

#[derive(Clone, Copy)]
pub struct Entry {
    pub key: u32,
    pub clock: Clock,
    pub register: Register,
}

#[derive(Clone, Copy)]
pub struct Entries {
    pub items: [Entry; ENTRIES],
    pub len: usize,
}

// An entry whose register may stand above its limit until it is laid down.
#[derive(Clone, Copy)]
pub struct WideEntry {
    pub key: u32,
    pub clock: Clock,
    pub wide: Wide,
}

// An entry laid down; where it has too many values, `over` is set, and its register is empty.
#[derive(Clone, Copy)]
pub struct LaidEntry {
    pub over: bool,
    pub entry: Entry,
}

// What is left of the next entry of a merge, if it stays, and how many it takes of ours and of theirs.
#[derive(Clone, Copy)]
pub struct MergeStep {
    pub survivor: Option<WideEntry>,
    pub ours: usize,
    pub theirs: usize,
}

// Finished entries: how many, whether one has too many values, and the entries where both are within the limits.
#[derive(Clone, Copy)]
pub struct FinishedEntries {
    pub count: usize,
    pub wide: bool,
    pub items: [Entry; ENTRIES],
}

#[derive(Clone, Copy)]
pub struct Update {
    pub dot: Dot,
    pub key: u32,
    pub put: Value,
}
