// The entries of a result: where they lie in the images that they are drawn from, how many records they have, and their image.
#![tactic(auto)]

pub mod apart;
pub mod counting;
pub mod growing;
pub mod writing;

use limits::{DOTS, ENTRIES, VALUES};

// What is left of a value: in the first of two images or in the second, where its record and its dots stand, and which dots.
#[derive(Clone, Copy)]
pub struct Source {
    pub second: bool,
    pub value: u16,
    pub from: u16,
    pub to: u16,
    pub marks: [bool; DOTS],
}

// A clock with counters and actors apart: between dots in an array there are gaps, which every sketch would start and copy.
#[derive(Clone, Copy)]
pub struct Flat {
    pub counters: [u64; DOTS],
    pub actors: [u16; DOTS],
    pub len: usize,
}

// An entry of the result: `len` counts its values on past the room.
#[derive(Clone, Copy)]
pub struct Sketched {
    pub key: u32,
    pub own: Flat,
    pub sources: [Source; VALUES],
    pub len: usize,
}

// What is counted of entries: how many, on past the room, whether one has too many values, and of those in the room the dots and all other records.
#[derive(Clone, Copy)]
pub struct Sums {
    pub count: usize,
    pub wide: bool,
    pub dots: usize,
    pub others: usize,
}

// The entries of the result.
#[derive(Clone, Copy)]
pub struct Sketch {
    pub items: [Sketched; ENTRIES],
    pub sums: Sums,
}
