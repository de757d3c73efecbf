// Marks on the dots of a run, where it lies: which of them are left.
#![tactic(auto)]

ghost use Rattle.std.specs.Prelude.{◌≡◌, List, ℕ, ◌+◌, ◌*◌, ◌≤◌, ◌<◌, length, take, get_or};
ghost use Rattle.listlaws.specs.First.{some};
ghost use Rattle.limits.specs.Limits.{dot_limit};
ghost use Rattle.clock.specs.declared.Dot.{Dot};
ghost use Rattle.clock.specs.Dots.{no_dot, dots_of, clock_of, cut_dots};
ghost use Rattle.clock.specs.Lawful.{Lawful};
ghost use Rattle.records.specs.Records.{record_from, bytes_of};
ghost use Rattle.records.specs.Writing.{Wrote};
ghost use Rattle.clockimage.specs.Image.{dot_records, dot_of};
ghost use Rattle.runs.specs.Run.{run_dots};
ghost use Rattle.marks.specs.Marks.{picked, marks_set};

use clock::{Clock, Dot};
use limits::DOTS;
use records::Record;

// How many of the first n marks are set.
pub fn count_marks(marks: [bool; DOTS], n: usize) -> usize
    requires { n ≤ dot_limit }
    ensures { (result ≡ marks_set (take n marks)) × (result ≤ n) }
{
    marks[..n].iter().filter(|left| **left).count()
}

// Whether one of the first n marks is set.
pub fn some_marks(marks: [bool; DOTS], n: usize) -> bool
    requires { n ≤ dot_limit }
    ensures { result ≡ some (λ b. b) (take n marks) }
{
    marks[..n].contains(&true)
}

// The dot of the record at place i of a run.
pub fn dot_at(run: &[u8], i: usize) -> Dot
    requires { (i + 1) * 16 ≤ length run.now }
    ensures { result ≡ dot_of (record_from run.now (i * 16)) }
{
    let actor = records::read16(run, i * 16 + 2);
    let counter = records::read64(run, i * 16 + 8);
    Dot { actor, counter }
}

// The marks of those dots that are left where what m dots have seen is cut: one walk along both.
fn cut<F: Fn(usize) -> Dot>(run: &[u8], marks: [bool; DOTS], m: usize, seen: F) -> [bool; DOTS]
    requires callable { (j : ℕ) → j < m → F.pre seen j }
    requires run { (length run.now ≤ dot_limit * 16) × Lawful (run_dots run.now) }
    ensures { (by : List Dot) → Lawful by → length by ≡ m → ((j : ℕ) (d : Dot) → j < m → F.post seen j d → d ≡ get_or by j no_dot)
        → picked result (run_dots run.now) ≡ cut_dots by (picked marks (run_dots run.now)) }
{
    let n = run.len() / 16;
    let mut left = marks;
    let mut i: usize = 0;
    let mut j: usize = 0;
    // A `while`: each of the two is walked at its own pace.
    while i < n && j < m {
        let d = dot_at(run, i);
        let e = seen(j);
        if e.actor < d.actor {
            j += 1;
        } else if d.actor < e.actor {
            i += 1;
        } else {
            if d.counter <= e.counter {
                left[i] = false;
            }
            i += 1;
            j += 1;
        }
    }
    left
}

// The marks of those dots that are left where what `by` has seen is cut.
pub fn cut_marks(run: &[u8], marks: [bool; DOTS], by: Clock) -> [bool; DOTS]
    requires { (length run.now ≤ dot_limit * 16) × (Lawful (run_dots run.now) × Lawful (dots_of by)) }
    ensures { picked result (run_dots run.now) ≡ cut_dots (dots_of by) (picked marks (run_dots run.now)) }
{
    cut(run, marks, by.size(), |j| by.dots[j])
}

// The same by the clock of a run, where it lies.
pub fn cut_marks_by(run: &[u8], marks: [bool; DOTS], by: &[u8]) -> [bool; DOTS]
    requires { (length run.now ≤ dot_limit * 16) × (Lawful (run_dots run.now) × Lawful (run_dots by.now)) }
    ensures { picked result (run_dots run.now)
        ≡ cut_dots (run_dots by.now) (picked marks (run_dots run.now)) }
{
    cut(run, marks, by.len() / 16, |j| dot_at(by, j))
}

// The clock of those dots whose marks are set.
pub fn pick_clock(run: &[u8], marks: [bool; DOTS]) -> Clock
    requires { length run.now ≤ dot_limit * 16 }
    ensures { result ≡ clock_of (picked marks (run_dots run.now)) }
{
    let n = run.len() / 16;
    let mut clock = Clock::new();
    for i in 0..n {
        let d = dot_at(run, i);
        if marks[i] {
            let k = clock.len;
            clock.dots[k] = d;
            clock.len = k + 1;
        }
    }
    clock
}

// Writes the dots whose marks are set as records of a kind, index and key; answers the place behind them.
pub fn write_picked(
    out: &mut [u8],
    at: usize,
    kind: u8,
    index: u8,
    key: u32,
    run: &[u8],
    marks: [bool; DOTS],
) -> usize
    requires { (length run.now ≤ dot_limit * 16) × (at + length (picked marks (run_dots run.now)) * 16 ≤ length out.old) }
    ensures { Wrote at (bytes_of (dot_records kind index key (picked marks (run_dots run.now))))
        out.old out.new result }
{
    let n = run.len() / 16;
    let mut next = at;
    for i in 0..n {
        let d = dot_at(run, i);
        if marks[i] {
            let r = Record {
                kind,
                index,
                actor: d.actor,
                key,
                number: d.counter,
            };
            next = records::write_record(out, next, r);
        }
    }
    next
}
