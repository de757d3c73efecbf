// What is drawn of an entry where it lies: what is left of its dots, and of its values.
#![tactic(auto)]

ghost use Rattle.std.specs.Prelude.{◌≡◌, true, cond, List, ◌++◌, ℕ, ◌+◌, ◌*◌, ◌≤◌, ◌<◌, length, get_or, take};
ghost use Rattle.listlaws.specs.First.{some};
ghost use Rattle.listlaws.specs.Sift.{sift};
ghost use Rattle.clock.specs.declared.Dot.{Dot};
ghost use Rattle.limits.specs.Limits.{dot_limit, value_limit, waiting_limit};
ghost use Rattle.clock.specs.Dots.{dots_of, cut_dots};
ghost use Rattle.clock.specs.Lawful.{Lawful};
ghost use Rattle.register.specs.declared.Value.{Value};
ghost use Rattle.register.specs.Values.{no_value, alive};
ghost use Rattle.entries.specs.declared.Entry.{Entry};
ghost use Rattle.removals.specs.declared.Removal.{Removal};
ghost use Rattle.entries.specs.Model.{values_in};
ghost use Rattle.mapimage.specs.MapImage.{map_longest};
ghost use Rattle.runs.specs.Run.{run_dots};
ghost use Rattle.marks.specs.Marks.{picked};
ghost use Rattle.queued.specs.Queue.{cuts_for, Queued, Marked};
ghost use Rattle.entrywalk.specs.Walking.{LiesAt};
ghost use Rattle.leaving.specs.Left.{value_left, NothingCuts};
ghost use Rattle.sketch.specs.Drawn.{value_named, Placed, Draws};

use clock::Clock;
use entrywalk::Lain;
use limits::{DOTS, VALUES, WAITING};
use queued::Queue;
use sketch::{Sketched, Source};

// Whether one of n removals lists a key.
fn any_listed(under: [bool; WAITING], n: usize) -> bool
    requires { n ≤ waiting_limit }
    ensures { result ≡ some (λ b. b) (take n under) }
{
    under[..n].contains(&true)
}

// Whether values stay whole: a clock deletes nothing, and no removal lists their key.
fn stay_whole(
    gone: Clock,
    m: usize,
    theirs: [bool; WAITING],
    n: usize,
    ours: [bool; WAITING],
) -> bool
    requires { (m ≤ waiting_limit) × (n ≤ waiting_limit) }
    ensures { result ≡ true → NothingCuts gone m theirs n ours }
{
    if gone.is_empty() {
        if any_listed(theirs, m) {
            return false;
        }
        return !any_listed(ours, n);
    }
    false
}

// The marks of those dots of a run that a clock leaves, and their removals that list a key, and ours; all where nothing cuts.
fn marks_left(
    run: &[u8],
    whole: bool,
    gone: Clock,
    t: &[u8],
    ds: Queue,
    theirs: [bool; WAITING],
    s: &[u8],
    cs: Queue,
    ours: [bool; WAITING],
) -> [bool; DOTS]
    requires { ((length run.now ≤ dot_limit * 16) × ((whole ≡ true → NothingCuts gone ds.len theirs cs.len ours)
        × (Lawful (run_dots run.now) × Lawful (dots_of gone)))) × (((w : List Removal) × Queued t.now ds w)
        × ((w : List Removal) × Queued s.now cs w)) }
    ensures { (v w : List Removal) (key : ℕ) → Queued t.now ds v → Queued s.now cs w → Marked v key theirs
        → Marked w key ours
        → picked result (run_dots run.now) ≡ cuts_for w key (cuts_for v key (cut_dots (dots_of gone) (run_dots run.now))) }
{
    if whole {
        return [true; DOTS];
    }
    let cut = marks::cut_marks(run, [true; DOTS], gone);
    let left = queued::cut_listed_marks(t, ds, theirs, run, cut);
    queued::cut_listed_marks(s, cs, ours, run, left)
}

// What is left of the value at place k of an entry.
fn source_of(
    v: &[u8],
    x: Lain,
    k: usize,
    second: bool,
    whole: bool,
    gone: Clock,
    t: &[u8],
    ds: Queue,
    theirs: [bool; WAITING],
    s: &[u8],
    cs: Queue,
    ours: [bool; WAITING],
) -> Source
    requires { ((e : Entry) × LiesAt v.now e x × (k < length (values_in e)))
        × (((whole ≡ true → NothingCuts gone ds.len theirs cs.len ours) × (Lawful (dots_of gone) × (length v.now ≤ map_longest)))
        × (((w : List Removal) × Queued t.now ds w) × ((w : List Removal) × Queued s.now cs w))) }
    ensures { ((result.second ≡ second) × ((result.from ≤ result.to) × (result.to ≤ result.from + dot_limit)))
        × ((e : Entry) (u w : List Removal) → LiesAt v.now e x → k < length (values_in e) → Queued t.now ds u
        → Queued s.now cs w
        → Marked u e.key theirs → Marked w e.key ours → Placed v.now result
        × (value_named v.now result ≡ value_left w u e.key (dots_of gone) (get_or (values_in e) k no_value))) }
{
    let starts = x.starts;
    let from = starts[k];
    let to = starts[k + 1];
    let i = from * 16;
    let j = to * 16;
    let marks = marks_left(&v[i..j], whole, gone, t, ds, theirs, s, cs, ours);
    let values = x.values;
    let place = values.from + k;
    Source {
        second,
        value: place as u16,
        from: from as u16,
        to: to as u16,
        marks,
    }
}

// An entry with what is left of those values of another that stand, behind its own.
pub fn draw_values(
    before: Sketched,
    v: &[u8],
    x: Lain,
    second: bool,
    stand: [bool; VALUES],
    gone: Clock,
    t: &[u8],
    ds: Queue,
    theirs: [bool; WAITING],
    s: &[u8],
    cs: Queue,
    ours: [bool; WAITING],
) -> Sketched
    requires { (before.len ≤ value_limit) × (((e : Entry) × LiesAt v.now e x)
        × ((Lawful (dots_of gone) × (length v.now ≤ map_longest)) × (((w : List Removal) × Queued t.now ds w)
        × ((w : List Removal) × Queued s.now cs w)))) }
    ensures { (result.len ≤ before.len + value_limit) × ((a b : List ℕ) (key : ℕ) (d : List Dot) (l : List Value) (e : Entry) (u w : List Removal)
        → cond second b a ≡ v.now → Draws a b key d l before → LiesAt v.now e x
        → Queued t.now ds u → Queued s.now cs w → Marked u e.key theirs → Marked w e.key ours
        → Draws a b key d (l ++ sift alive (value_left w u e.key (dots_of gone)) (picked stand (values_in e))) result) }
{
    let whole = stay_whole(gone, ds.len, theirs, cs.len, ours);
    let values = x.values;
    let n = values.to - values.from;
    let mut out = before;
    for k in 0..n {
        if stand[k] {
            let one = source_of(v, x, k, second, whole, gone, t, ds, theirs, s, cs, ours);
            let marks = one.marks;
            let many = (one.to - one.from) as usize;
            if marks::some_marks(marks, many) {
                let m = out.len;
                out.len = m + 1;
                if m < VALUES {
                    out.sources[m] = one;
                }
            }
        }
    }
    out
}
