// What differs between two maps, told key by key from their images where they lie.
#![tactic(auto)]

pub mod pairing;
pub mod telling;

use differences::Difference;
use entrywalk::Cursor;

// A key with its class, and where the next entries of both maps stand.
#[derive(Clone, Copy)]
pub struct Next {
    pub told: Difference,
    pub x: Cursor,
    pub y: Cursor,
}
