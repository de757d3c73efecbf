// The limits of document 01: the most of each thing that a map, a clock, a register or a removal may hold.
#![tactic(auto)]

// Dots in any clock.
pub const DOTS: usize = 8;

// Entries of a map.
pub const ENTRIES: usize = 32;

// Values in a register.
pub const VALUES: usize = 4;

// Removals that wait.
pub const WAITING: usize = 16;

// Keys in each of them, or in a removal.
pub const KEYS: usize = 16;
