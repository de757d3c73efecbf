// The entries of a merge, drawn from two images where they lie.
#![tactic(auto)]

pub mod drawing;
pub mod stepping;

use clock::Clock;
use entrywalk::Lain;

// An entry that one map has alone: what a merge keeps of its clock, and what it deletes.
#[derive(Clone, Copy)]
pub struct Alone {
    pub entry: Lain,
    pub keep: Clock,
    pub gone: Clock,
}

// What comes next: our entry and theirs, what a merge keeps of their clocks, and what it deletes.
#[derive(Clone, Copy)]
pub struct Coming {
    pub x: Lain,
    pub y: Lain,
    pub keep: Clock,
    pub gone: Clock,
}
