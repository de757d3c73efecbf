// Waiting removals that were cut, in order: those with equal clocks are one.
ghost use Rattle.std.specs.Prelude.{◌≡◌, false, cond, List, [], ◌∷◌, ◌++◌, map, ℕ, ◌+◌, ◌≤◌, ◌<◌, length, take, drop, get_or};
ghost use Rattle.clock.specs.declared.Dot.{Dot};
ghost use Rattle.clock.specs.Dots.{dots_of};
ghost use Rattle.clock.specs.Lawful.{Lawful};
ghost use Rattle.removals.specs.declared.Removal.{Removal};
ghost use Rattle.limits.specs.Limits.{waiting_limit};
ghost use Rattle.removals.specs.Model.{under_of};
ghost use Rattle.removals.specs.Waits.{cut_removal};
ghost use Rattle.queued.specs.Queue.{Queued};
ghost use Rattle.planned.specs.Left.{Left, Lined};
ghost use Rattle.planned.specs.Seats.{seat_of, insert_clock, gather_all, place_among};

use crate::{Held, Ordered, left};
use clock::Clock;
use limits::WAITING;
use queued::Queue;

// How many stand before one, from the first on.
fn seat(s: &[u8], all: Ordered, x: Held) -> usize
    requires { ((l : List (List Dot)) × Lined s.now all l) × ((d : List Dot) × Left s.now x d) }
    ensures { (result ≤ all.len) × ((l : List (List Dot)) (d : List Dot) → Lined s.now all l → Left s.now x d
        → result ≡ seat_of d l) }
{
    let n = queued::places(all.len);
    for i in 0..n {
        if !left::before(s, all.items[i], s, x) {
            return i;
        }
    }
    n
}

// Whether one is there, at its place.
fn there(s: &[u8], all: Ordered, k: usize, x: Held) -> bool
    requires { ((l : List (List Dot)) × Lined s.now all l) × ((d : List Dot) × Left s.now x d) }
    ensures { (l : List (List Dot)) (d : List Dot) → Lined s.now all l → Left s.now x d
        → k ≡ seat_of d l → insert_clock l d ≡ cond result l (take k l ++ (d ∷ drop k l)) }
{
    let n = queued::places(all.len);
    if k < n {
        let y = all.items[k];
        return !left::before(s, x, s, y);
    }
    false
}

// One more at a place; those from there on move up.
fn insert(all: Ordered, k: usize, x: Held) -> Ordered
    requires { (k ≤ all.len) × (all.len < waiting_limit) }
    ensures { (result.len ≡ all.len + 1) × ((s : List ℕ) (l : List (List Dot)) (d : List Dot) → Lined s all l → Left s x d
        → Lined s result (take k l ++ (d ∷ drop k l))) }
{
    let n = all.len;
    let mut out = all;
    out.items[k] = x;
    // A copy of the whole slice would make the archive call memmove.
    for i in k..n {
        out.items[i + 1] = all.items[i];
    }
    out.len = n + 1;
    out
}

// One more in order, unless it is there.
fn add(s: &[u8], all: Ordered, x: Held) -> Ordered
    requires { (all.len < waiting_limit) × (((l : List (List Dot)) × Lined s.now all l) × ((d : List Dot) × Left s.now x d)) }
    ensures { (result.len ≤ all.len + 1) × ((l : List (List Dot)) (d : List Dot) → Lined s.now all l → Left s.now x d
        → Lined s.now result (insert_clock l d)) }
{
    let k = seat(s, all, x);
    if there(s, all, k, x) {
        return all;
    }
    insert(all, k, x)
}

// A removal of a queue, cut.
fn cut_at(s: &[u8], q: Queue, k: usize, by: Clock) -> Held
    requires { ((w : List Removal) × Queued s.now q w × (k < length w)) × Lawful (dots_of by) }
    ensures { (w : List Removal) → Queued s.now q w → k < length w
        → Left s.now result (get_or (map under_of (map (cut_removal (dots_of by)) w)) k []) }
{
    let x = left::whole(false, q.starts[k], q.starts[k + 1]);
    left::cut(s, x, by)
}

// All removals of a queue, cut, in order; those of which nothing is left go.
pub fn cut_all(s: &[u8], q: Queue, by: Clock) -> Ordered
    requires { ((w : List Removal) × Queued s.now q w) × Lawful (dots_of by) }
    ensures { (w : List Removal) → Queued s.now q w
        → Lined s.now result (gather_all [] (map under_of (map (cut_removal (dots_of by)) w))) }
{
    let none = left::whole(false, 0, 0);
    let mut all = Ordered {
        items: [none; WAITING],
        len: 0,
    };
    for k in 0..queued::places(q.len) {
        let x = cut_at(s, q, k, by);
        if 0 < left::count(x) {
            all = add(s, all, x);
        }
    }
    all
}

// Where each removal of a queue goes among those: WAITING where nothing of it is left.
pub fn seats(s: &[u8], q: Queue, by: Clock, all: Ordered) -> [u8; WAITING]
    requires { ((w : List Removal) × Queued s.now q w) × (((l : List (List Dot)) × Lined s.now all l) × Lawful (dots_of by)) }
    ensures { (w : List Removal) (l : List (List Dot)) → Queued s.now q w → Lined s.now all l
        → (a : ℕ) → a < waiting_limit → get_or result a waiting_limit
        ≡ place_among l (get_or (map under_of (map (cut_removal (dots_of by)) w)) a []) }
{
    let mut out: [u8; WAITING] = [WAITING as u8; WAITING];
    for k in 0..queued::places(q.len) {
        let x = cut_at(s, q, k, by);
        if 0 < left::count(x) {
            out[k] = seat(s, all, x) as u8;
        }
    }
    out
}
