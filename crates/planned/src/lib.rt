// The waiting removals of a result, planned from two images where they lie: no clock is taken out.
#![tactic(auto)]

ghost use Rattle.std.specs.Prelude.{◌≡◌, true, false, cond, ◌&&◌, ◌||◌, not, List, [], ℕ, ◌+◌, ◌*◌, ◌≤◌, ◌<◌, length};
ghost use Rattle.listlaws.specs.Sift.{those};
ghost use Rattle.clock.specs.Dots.{dots_of, is_empty, cut_dots};
ghost use Rattle.clock.specs.Lawful.{Lawful};
ghost use Rattle.removals.specs.declared.Removal.{Removal};
ghost use Rattle.limits.specs.Limits.{waiting_limit};
ghost use Rattle.removals.specs.Valid.{ValidWaiting};
ghost use Rattle.removals.specs.Waits.{clock_before, waits, unite_all, reset_waiting};
ghost use Rattle.records.specs.Records.{bytes_of};
ghost use Rattle.records.specs.Writing.{Wrote};
ghost use Rattle.records.specs.Kinds.{waiting_dot_kind};
ghost use Rattle.clockimage.specs.Image.{dot_records};
ghost use Rattle.mapimage.specs.MapImage.{flat_from, waiting_dots};
ghost use Rattle.queued.specs.Queue.{Queued};
ghost use Rattle.planned.specs.declared.Held.{Held};
ghost use Rattle.planned.specs.Planned.{held_in, dots_left, Plans};
ghost use Rattle.planned.specs.Left.{left_in, RunWithin, Clear, one_if};

pub mod left;
pub mod seating;

use clock::Clock;
use limits::{DOTS, WAITING};
use queued::Queue;

// A waiting removal of a result: in the first of two images or in the second, where its dots stand, and which are left.
#[derive(Clone, Copy)]
pub struct Held {
    pub second: bool,
    pub from: usize,
    pub to: usize,
    pub marks: [bool; DOTS],
}

// Waiting removals in order.
#[derive(Clone, Copy)]
pub struct Ordered {
    pub items: [Held; WAITING],
    pub len: usize,
}

// Which of two lists' next removals is in turn, or both where their clocks are equal; whether it stays, and where it lies.
#[derive(Clone, Copy)]
pub struct Turn {
    pub first: bool,
    pub second: bool,
    pub stays: bool,
    pub held: Held,
}

// The waiting removals of a result, or that they are too many; and for each removal of two lists its new place, WAITING where it goes.
#[derive(Clone, Copy)]
pub struct Plan {
    pub over: bool,
    pub items: [Held; WAITING],
    pub len: usize,
    pub ours: [u8; WAITING],
    pub theirs: [u8; WAITING],
}

// Whether a list's next removal is in turn beside another list's, each if there is one.
fn in_turn(s: &[u8], mine: bool, x: Held, t: &[u8], yours: bool, y: Held) -> bool
    requires { (mine ≡ true → RunWithin s.now x) × (yours ≡ true → RunWithin t.now y) }
    ensures { result ≡ mine && not (yours && clock_before (left_in t.now y) (left_in s.now x)) }
{
    mine && !(yours && left::before(t, y, s, x))
}

// What comes next of two lists, of which one at least has a removal left.
fn next_turn(s: &[u8], mine: bool, x: Held, t: &[u8], yours: bool, y: Held, seen: Clock) -> Turn
    requires { ((mine ≡ true → Clear s.now x) × (yours ≡ true → Clear t.now y)) × ((mine || yours ≡ true) × Lawful (dots_of seen)) }
    ensures { ((result.first ≡ mine && not (yours && clock_before (left_in t.now y) (left_in s.now x)))
        × (result.second ≡ yours && not (mine && clock_before (left_in s.now x) (left_in t.now y))))
        × ((result.held ≡ cond result.first x y)
        × (result.stays ≡ not (is_empty (cut_dots (dots_of seen) (cond result.first (left_in s.now x) (left_in t.now y)))))) }
{
    let first = in_turn(s, mine, x, t, yours, y);
    let second = in_turn(t, yours, y, s, mine, x);
    if first {
        let stays = left::waits(s, x, seen);
        return Turn {
            first,
            second,
            stays,
            held: x,
        };
    }
    let stays = left::waits(t, y, seen);
    Turn {
        first,
        second,
        stays,
        held: y,
    }
}

// A place of an array of WAITING: the last where it is behind it.
fn place(i: usize) -> usize
    ensures { (result < waiting_limit) × (i < waiting_limit → result ≡ i) }
{
    i.min(WAITING - 1)
}

// One more where it is in turn.
fn passed(i: usize, turn: bool) -> usize
    requires { i < waiting_limit + waiting_limit }
    ensures { result ≡ i + one_if turn }
{
    if turn { i + 1 } else { i }
}

// Where a removal goes that is in turn, or what was told of its place.
fn told(turn: bool, k: usize, before: u8) -> u8
    requires { k < waiting_limit }
    ensures { result ≡ cond turn k before }
{
    if turn { k as u8 } else { before }
}

// The plan of two queues as one, without what a clock has seen.
pub fn join_plan(s: &[u8], q: Queue, t: &[u8], p: Queue, seen: Clock) -> Plan
    requires { ((w : List Removal) × Queued s.now q w) × (((v : List Removal) × Queued t.now p v) × Lawful (dots_of seen)) }
    ensures { (w v : List Removal) → Queued s.now q w → Queued t.now p v → ValidWaiting w → ValidWaiting v
        → Plans s.now t.now w v (unite_all (those (waits (dots_of seen)) w) (those (waits (dots_of seen)) v)) result }
{
    let n = queued::places(q.len);
    let m = queued::places(p.len);
    let none = left::whole(false, 0, 0);
    let mut items: [Held; WAITING] = [none; WAITING];
    let mut ours: [u8; WAITING] = [WAITING as u8; WAITING];
    let mut theirs: [u8; WAITING] = [WAITING as u8; WAITING];
    let mut count: usize = 0;
    let mut i: usize = 0;
    let mut j: usize = 0;
    // A `while`: each of the two queues is walked at its own pace.
    while (i < n) | (j < m) {
        let a = place(i);
        let b = place(j);
        let x = left::whole(false, q.starts[a], q.starts[a + 1]);
        let y = left::whole(true, p.starts[b], p.starts[b + 1]);
        let r = next_turn(s, i < n, x, t, j < m, y, seen);
        let k = place(count);
        let mine = ours[a];
        let yours = theirs[b];
        ours[a] = told(r.first & r.stays, k, mine);
        theirs[b] = told(r.second & r.stays, k, yours);
        i = passed(i, r.first);
        j = passed(j, r.second);
        if r.stays {
            let held = r.held;
            items[k] = held;
            count += 1;
        }
    }
    Plan {
        over: WAITING < count,
        items,
        len: count,
        ours,
        theirs,
    }
}

// The plan of a queue that was reset.
pub fn reset_plan(s: &[u8], q: Queue, by: Clock) -> Plan
    requires { ((w : List Removal) × Queued s.now q w) × Lawful (dots_of by) }
    ensures { (t : List ℕ) (w : List Removal) → Queued s.now q w → ValidWaiting w
        → Plans s.now t w [] (reset_waiting (dots_of by) w) result }
{
    let all = seating::cut_all(s, q, by);
    let ours = seating::seats(s, q, by, all);
    let items = all.items;
    Plan {
        over: false,
        items,
        len: all.len,
        ours,
        theirs: [WAITING as u8; WAITING],
    }
}

// How many dots a result's waiting removals have.
pub fn count_dots(p: Plan) -> usize
    requires { (p.over ≡ false) × ((s t : List ℕ) × (w v result : List Removal) × Plans s t w v result p) }
    ensures { (s t : List ℕ) (w v united : List Removal) → Plans s t w v united p → result ≡ length (flat_from waiting_dots 0 united) }
{
    let mut total: usize = 0;
    for x in &p.items[..queued::places(p.len)] {
        total += left::count(*x);
    }
    total
}

// Writes what is left of a removal's dots as those at an index; answers the place behind them.
fn write_held(out: &mut [u8], at: usize, index: u8, s: &[u8], t: &[u8], x: Held) -> usize
    requires { RunWithin (held_in s.now t.now x) x × (at + length (dots_left s.now t.now x) * 16 ≤ length out.old) }
    ensures { Wrote at (bytes_of (dot_records waiting_dot_kind index 0 (dots_left s.now t.now x)))
        out.old out.new result }
{
    if x.second {
        return left::write(out, at, index, t, x);
    }
    left::write(out, at, index, s, x)
}

// Writes the dots of a result's waiting removals; answers the place behind them.
pub fn write_clocks(out: &mut [u8], at: usize, s: &[u8], t: &[u8], p: Plan) -> usize
    requires { (p.over ≡ false) × ((w v result : List Removal) × Plans s.now t.now w v result p
        × (at + length (flat_from waiting_dots 0 result) * 16 ≤ length out.old)) }
    ensures { ((w v united : List Removal) → Plans s.now t.now w v united p
        → at + length (flat_from waiting_dots 0 united) * 16 ≤ length out.old
        → Wrote at (bytes_of (flat_from waiting_dots 0 united)) out.old out.new result) }
{
    let mut next = at;
    for (i, x) in p.items[..queued::places(p.len)].iter().enumerate() {
        next = write_held(out, next, i as u8, s, t, *x);
    }
    next
}
