// What is left of a run of dots, by its marks.
ghost use Rattle.std.specs.Prelude.{◌≡◌, true, false, not, List, ℕ, ◌+◌, ◌*◌, ◌≤◌, ◌<◌, length, drop, get_or};
ghost use Rattle.clock.specs.declared.Dot.{Dot};
ghost use Rattle.limits.specs.Limits.{dot_limit};
ghost use Rattle.clock.specs.Dots.{dots_of, is_empty, cut_dots};
ghost use Rattle.clock.specs.Lawful.{Lawful};
ghost use Rattle.removals.specs.Waits.{clock_before};
ghost use Rattle.records.specs.Records.{bytes_of};
ghost use Rattle.records.specs.Writing.{Wrote};
ghost use Rattle.records.specs.Kinds.{waiting_dot_kind};
ghost use Rattle.clockimage.specs.Image.{dot_records};
ghost use Rattle.runs.specs.Run.{run_dots};
ghost use Rattle.marks.specs.Marks.{picked};
ghost use Rattle.walks.specs.Walk.{between};
ghost use Rattle.planned.specs.declared.Held.{Held};
ghost use Rattle.planned.specs.Left.{left_in, RunWithin, Clear, whole_run};

use crate::Held;
use clock::Clock;
use limits::DOTS;
use records::WAITING_DOT;

// A run of which all is left.
pub fn whole(second: bool, from: usize, to: usize) -> Held
    ensures { result ≡ whole_run second from to }
{
    Held {
        second,
        from,
        to,
        marks: [true; DOTS],
    }
}

// Its run where it lies.
fn run_of(s: &[u8], x: Held) -> &[u8]
    requires { RunWithin s.now x }
    ensures { result.now ≡ between s.now x.from x.to }
{
    &s[x.from * 16..x.to * 16]
}

// The first place from one on whose mark is set, or n.
fn next_left(marks: [bool; DOTS], from: usize, n: usize) -> usize
    requires { (from ≤ n) × (n ≤ dot_limit) }
    ensures { ((from ≤ result) × (result ≤ n)) × ((result < n → get_or marks result false ≡ true)
        × ((l : List Dot) → length l ≡ n → picked (drop from marks) (drop from l) ≡ picked (drop result marks) (drop result l))) }
{
    for i in from..n {
        if marks[i] {
            return i;
        }
    }
    n
}

// Whether what is left of one run stands before what is left of another: dots pair by pair, a prefix first.
fn left_before(x: &[u8], mine: [bool; DOTS], y: &[u8], yours: [bool; DOTS]) -> bool
    requires { (length x.now ≤ dot_limit * 16) × (length y.now ≤ dot_limit * 16) }
    ensures { result ≡ clock_before (picked mine (run_dots x.now)) (picked yours (run_dots y.now)) }
{
    let n = x.len() / 16;
    let m = y.len() / 16;
    let mut i = next_left(mine, 0, n);
    let mut j = next_left(yours, 0, m);
    // A `while`: each of the two runs is walked at its own pace.
    while i < n && j < m {
        let d = marks::dot_at(x, i);
        let e = marks::dot_at(y, j);
        if d.actor != e.actor {
            return d.actor < e.actor;
        }
        if d.counter != e.counter {
            return d.counter < e.counter;
        }
        i = next_left(mine, i + 1, n);
        j = next_left(yours, j + 1, m);
    }
    j < m
}

// The same of what two removals hold, each in its image.
pub fn before(s: &[u8], x: Held, t: &[u8], y: Held) -> bool
    requires { RunWithin s.now x × RunWithin t.now y }
    ensures { result ≡ clock_before (left_in s.now x) (left_in t.now y) }
{
    left_before(run_of(s, x), x.marks, run_of(t, y), y.marks)
}

// Without what a clock has seen.
pub fn cut(s: &[u8], x: Held, by: Clock) -> Held
    requires { Clear s.now x × Lawful (dots_of by) }
    ensures { ((result.second ≡ x.second) × ((result.from ≡ x.from) × (result.to ≡ x.to)))
        × (left_in s.now result ≡ cut_dots (dots_of by) (left_in s.now x)) }
{
    let marks = marks::cut_marks(run_of(s, x), x.marks, by);
    Held {
        second: x.second,
        from: x.from,
        to: x.to,
        marks,
    }
}

// How many dots are left.
pub fn count(x: Held) -> usize
    requires { (s : List ℕ) × RunWithin s x }
    ensures { (result ≤ dot_limit) × ((s : List ℕ) → RunWithin s x → result ≡ length (left_in s x)) }
{
    marks::count_marks(x.marks, x.to - x.from)
}

// Whether a dot is left where what a clock has seen is cut.
pub fn waits(s: &[u8], x: Held, seen: Clock) -> bool
    requires { Clear s.now x × Lawful (dots_of seen) }
    ensures { result ≡ not (is_empty (cut_dots (dots_of seen) (left_in s.now x))) }
{
    let rest = cut(s, x, seen);
    let n = count(rest);
    0 < n
}

// Writes what is left as the dots of the removal at an index; answers the place behind them.
pub fn write(out: &mut [u8], at: usize, index: u8, s: &[u8], x: Held) -> usize
    requires { RunWithin s.now x × (at + length (left_in s.now x) * 16 ≤ length out.old) }
    ensures { Wrote at (bytes_of (dot_records waiting_dot_kind index 0 (left_in s.now x))) out.old
        out.new result }
{
    marks::write_picked(out, at, WAITING_DOT, index, 0, run_of(s, x), x.marks)
}
