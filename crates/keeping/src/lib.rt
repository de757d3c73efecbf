// What a merge keeps of the dots of two entries, and what it deletes.
#![tactic(auto)]

ghost use Rattle.std.specs.Prelude.{◌≡◌, cond, ◌+◌, ◌≤◌, ◌<◌, length, drop};
ghost use Rattle.limits.specs.Limits.{dot_limit};
ghost use Rattle.clock.specs.Dots.{dots_of, clock_of, cut_dots, join_dots};
ghost use Rattle.clock.specs.Lawful.{Lawful};
ghost use Rattle.entries.specs.Entries.{keep_dots};
ghost use Rattle.keeping.specs.Keeping.{kept_counter, sought, meeting};

use clock::{Clock, Dot};

// What a merge keeps of two clocks, and what it deletes.
#[derive(Clone, Copy)]
pub struct Kept {
    pub keep: Clock,
    pub gone: Clock,
}

// The first actor of two clocks from a place in each on: its counters, and the places behind it.
#[derive(Clone, Copy)]
pub struct Meeting {
    pub actor: u16,
    pub ours: u64,
    pub theirs: u64,
    pub i: usize,
    pub j: usize,
}

// What a clock has for an actor from a place on, and the place behind the actor.
#[derive(Clone, Copy)]
pub struct Sought {
    pub counter: u64,
    pub next: usize,
}

fn counted(stays: bool, x: u64) -> u64
    ensures { result ≡ cond stays x 0 }
{
    if stays { x } else { 0 }
}

// Of an actor's counters in our entry, in theirs, and in both maps' clocks: the one that is kept, or 0.
fn kept_counter(x: u64, y: u64, mine: u64, yours: u64) -> u64
    ensures { result ≡ kept_counter x y mine yours }
{
    counted(y == x, x)
        .max(counted(yours < x, x))
        .max(counted(mine < y, y))
}

// The counter of an actor in a clock of n dots from a place on, and the place behind the actor.
fn seek(clock: Clock, n: usize, from: usize, actor: u16) -> Sought
    requires { (n ≡ length (dots_of clock)) × (n ≤ dot_limit) }
    ensures { result ≡ sought actor from (drop from (dots_of clock)) }
{
    let mut i = from;
    // A `while`: the place where it stops is what it gives, also where `from` is behind the last dot.
    while i < n {
        let d = clock.dots[i];
        if d.actor == actor {
            return Sought {
                counter: d.counter,
                next: i + 1,
            };
        }
        if actor < d.actor {
            return Sought {
                counter: 0,
                next: i,
            };
        }
        i += 1;
    }
    Sought {
        counter: 0,
        next: i,
    }
}

// An actor that the first of two clocks has alone.
fn first_alone(d: Dot, i: usize, j: usize) -> Meeting
    requires { i < dot_limit }
    ensures { result ≡ record { actor = d.actor; ours = d.counter; theirs = 0; i = i + 1; j = j } }
{
    Meeting {
        actor: d.actor,
        ours: d.counter,
        theirs: 0,
        i: i + 1,
        j,
    }
}

// An actor that the second of two clocks has alone.
fn second_alone(e: Dot, i: usize, j: usize) -> Meeting
    requires { j < dot_limit }
    ensures { result ≡ record { actor = e.actor; ours = 0; theirs = e.counter; i = i; j = j + 1 } }
{
    Meeting {
        actor: e.actor,
        ours: 0,
        theirs: e.counter,
        i,
        j: j + 1,
    }
}

// The first actor of two clocks of n and m dots from a place in each on: its counters, and the places behind it.
fn meet(x: Clock, n: usize, i: usize, y: Clock, m: usize, j: usize) -> Meeting
    requires { ((n ≡ length (dots_of x)) × (n ≤ dot_limit)) × ((m ≡ length (dots_of y)) × (m ≤ dot_limit)) }
    ensures { result ≡ meeting i j (drop i (dots_of x)) (drop j (dots_of y)) }
{
    if i < n {
        let d = x.dots[i];
        if j < m {
            let e = y.dots[j];
            if d.actor < e.actor {
                return first_alone(d, i, j);
            }
            if e.actor < d.actor {
                return second_alone(e, i, j);
            }
            return Meeting {
                actor: d.actor,
                ours: d.counter,
                theirs: e.counter,
                i: i + 1,
                j: j + 1,
            };
        }
        return first_alone(d, i, j);
    }
    if j < m {
        let e = y.dots[j];
        return second_alone(e, i, j);
    }
    Meeting {
        actor: 0,
        ours: 0,
        theirs: 0,
        i,
        j,
    }
}

// What a merge keeps of two entries' clocks, and what it deletes: one walk over both, with both maps' clocks beside.
pub fn keeps(x: Clock, y: Clock, mine: Clock, yours: Clock) -> Kept
    requires { (Lawful (dots_of x) × Lawful (dots_of y))
        × ((Lawful (dots_of mine) × Lawful (dots_of yours)) × (length (join_dots (dots_of x) (dots_of y)) ≤ dot_limit)) }
    ensures { (result.keep ≡ clock_of (keep_dots (dots_of mine) (dots_of yours) (dots_of x) (dots_of y)))
        × (result.gone ≡ clock_of (cut_dots (keep_dots (dots_of mine) (dots_of yours) (dots_of x) (dots_of y)) (join_dots (dots_of x) (dots_of y)))) }
{
    let n = x.size();
    let m = y.size();
    let a = mine.size();
    let b = yours.size();
    let mut keep = Clock::new();
    let mut gone = Clock::new();
    let mut i: usize = 0;
    let mut j: usize = 0;
    let mut p: usize = 0;
    let mut q: usize = 0;
    // A `while`: each of the two is walked at its own pace.
    while (i < n) | (j < m) {
        let r = meet(x, n, i, y, m, j);
        let e = seek(mine, a, p, r.actor);
        let f = seek(yours, b, q, r.actor);
        i = r.i;
        j = r.j;
        p = e.next;
        q = f.next;
        let k = kept_counter(r.ours, r.theirs, e.counter, f.counter);
        let all = r.ours.max(r.theirs);
        if 0 < k {
            let w = keep.len;
            let left = Dot {
                actor: r.actor,
                counter: k,
            };
            keep.dots[w] = left;
            keep.len = w + 1;
        }
        if k < all {
            let w = gone.len;
            let lost = Dot {
                actor: r.actor,
                counter: all,
            };
            gone.dots[w] = lost;
            gone.len = w + 1;
        }
    }
    Kept { keep, gone }
}
