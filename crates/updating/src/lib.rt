// The entries of an update, drawn from the map's image and the operation's where they lie.
#![tactic(auto)]

pub mod drawing;
pub mod stepping;

use entrywalk::Lain;

// What comes next: an entry of the map, or none at the put's key, and whether the put goes there.
#[derive(Clone, Copy)]
pub struct Next {
    pub entry: Lain,
    pub put: bool,
}
