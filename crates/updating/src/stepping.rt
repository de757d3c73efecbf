// The next key of an update: the map's entries in their order, and the put at its key.
ghost use Rattle.std.specs.Prelude.{◌≡◌, true, not, ◌||◌, List, ltb};
ghost use Rattle.entries.specs.declared.Entry.{Entry};
ghost use Rattle.entries.specs.declared.Update.{Update};
ghost use Rattle.entrywalk.specs.Walking.{Ahead};
ghost use Rattle.updating.specs.Updated.{UpdateComes};

use crate::Next;
use entrywalk::Cursor;
use walks::Layout;

// What comes next of the entries from a place on, and of a put of this key where it is not done.
pub fn next(s: &[u8], l: Layout, x: Cursor, done: bool, key: u32) -> Next
    requires { ((ltb x.own l.third || not done) ≡ true) × ((es : List Entry) × Ahead s.now l x es) }
    ensures { (u : Update) (es : List Entry) → key ≡ u.key → Ahead s.now l x es
        → UpdateComes s.now l u x done es result }
{
    if done {
        let entry = entrywalk::entry_at(s, l, x);
        return Next { entry, put: false };
    }
    let goal = key as u64;
    let p = entrywalk::head(s, x.own, l.third);
    if goal < p {
        let entry = entrywalk::none_at(key, x);
        return Next { entry, put: true };
    }
    let entry = entrywalk::entry_at(s, l, x);
    if p < goal {
        return Next { entry, put: false };
    }
    Next { entry, put: true }
}
