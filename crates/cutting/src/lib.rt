// The entries of a removal and of a reset, drawn from an image where they lie.
#![tactic(auto)]

ghost use Rattle.std.specs.Prelude.{◌≡◌, cond, ◌||◌, List, [], ◌++◌, ℕ, ◌+◌, ◌*◌, ◌≤◌, ◌<◌, length};
ghost use Rattle.listlaws.specs.Sift.{sift};
ghost use Rattle.clock.specs.declared.Dot.{Dot};
ghost use Rattle.limits.specs.Limits.{dot_limit, value_limit};
ghost use Rattle.clock.specs.Dots.{dots_of, clock_of, cut_dots};
ghost use Rattle.clock.specs.Lawful.{Lawful};
ghost use Rattle.register.specs.declared.Value.{Value};
ghost use Rattle.register.specs.Values.{cut_values};
ghost use Rattle.entries.specs.declared.Entry.{Entry};
ghost use Rattle.removals.specs.Model.{keys_of, under_of};
ghost use Rattle.entries.specs.Model.{values_in};
ghost use Rattle.entries.specs.Entries.{stays, cut_entry, remove_entries};
ghost use Rattle.removals.specs.Waits.{listed};
ghost use Rattle.map.specs.Model.{entries_in};
ghost use Rattle.mapimage.specs.MapImage.{map_longest};
ghost use Rattle.maprecords.specs.Related.{read_map};
ghost use Rattle.layout.specs.Whole.{Lies};
ghost use Rattle.runs.specs.Run.{run_dots};
ghost use Rattle.marks.specs.Marks.{picked};
ghost use Rattle.entrywalk.specs.Walking.{LiesAt};
ghost use Rattle.walks.specs.Walk.{between};
ghost use Rattle.sketch.specs.Drawn.{Draws, Sketches};
ghost use Rattle.cutting.specs.Cut.{cut_where};

use clock::Clock;
use entrywalk::{Cursor, Lain};
use limits::{DOTS, ENTRIES, VALUES};
use removals::{Keys, Removal};
use sketch::{Sketch, Sketched, Source, Sums};
use walks::Layout;

// A value's source: what is left of its dots where what a clock has seen is cut.
fn source_of(v: &[u8], second: bool, value: usize, from: usize, to: usize, gone: Clock) -> Source
    requires { ((length v.now ≤ map_longest) × ((from ≤ to)
        × ((to ≤ from + dot_limit) × ((to * 16 ≤ length v.now) × (value * 16 + 16 ≤ length v.now)))))
        × (Lawful (run_dots (between v.now from to)) × Lawful (dots_of gone)) }
    ensures { ((result.second ≡ second) × ((result.value ≡ value) × ((result.from ≡ from) × (result.to ≡ to))))
        × (picked result.marks (run_dots (between v.now from to)) ≡ cut_dots (dots_of gone) (run_dots (between v.now from to))) }
{
    let start = from * 16;
    let end = to * 16;
    let marks = marks::cut_marks(&v[start..end], [true; DOTS], gone);
    Source {
        second,
        value: value as u16,
        from: from as u16,
        to: to as u16,
        marks,
    }
}

// Those values of an entry that stand, each without what a clock has seen, behind what is drawn before.
fn draw_values(
    before: Sketched,
    v: &[u8],
    e: Lain,
    second: bool,
    stand: [bool; VALUES],
    gone: Clock,
) -> Sketched
    requires { (before.len ≤ value_limit) × ((length v.now ≤ map_longest) × (((x : Entry) × LiesAt v.now x e) × Lawful (dots_of gone))) }
    ensures { (result.len ≤ before.len + value_limit)
        × ((s t : List ℕ) (x : Entry) (key : ℕ) (d : List Dot) (l : List Value) → v.now ≡ cond second t s → LiesAt v.now x e
        → Draws s t key d l before
        → Draws s t key d (l ++ cut_values (dots_of gone) (picked stand (values_in x))) result) }
{
    let values = e.values;
    let first = values.from;
    let n = values.to - first;
    let starts = e.starts;
    let mut out = before;
    for k in 0..n {
        if stand[k] {
            let x = source_of(v, second, first + k, starts[k], starts[k + 1], gone);
            let marks = x.marks;
            let many = (x.to - x.from) as usize;
            if marks::some_marks(marks, many) {
                let m = out.len;
                out.len = m + 1;
                if m < VALUES {
                    out.sources[m] = x;
                }
            }
        }
    }
    out
}

// What cuts an entry: a clock where its key is listed, or all are, and else nothing.
fn cutter(all: bool, keys: Keys, key: u32, by: Clock) -> Clock
    ensures { result ≡ cond (all || listed (keys_of keys) key) by (clock_of []) }
{
    let none = Clock::new();
    if all | keys.contains(key) { by } else { none }
}

// The entries of a map, cut by a clock where their keys are listed, or all of them.
fn draw_cut(s: &[u8], l: Layout, all: bool, keys: Keys, by: Clock) -> Sketch
    requires { Lies s.now (read_map s.now).map l × ((length s.now ≤ map_longest) × Lawful (dots_of by)) }
    ensures { (t : List ℕ) → Sketches s.now t (sift stays (cut_where all (keys_of keys) (dots_of by))
        (entries_in (read_map s.now).map)) result }
{
    let end = l.third;
    let nothing = Clock::new();
    let blank = Sketched::new(0, nothing);
    let mut items: [Sketched; ENTRIES] = [blank; ENTRIES];
    let mut sums = Sums::new();
    let mut x = Cursor {
        own: l.second,
        value: end,
        dot: l.fourth,
    };
    // A `while`: how far a turn goes stands in the image.
    while x.own < end {
        let e = entrywalk::entry_at(s, l, x);
        x = e.next;
        let here = cutter(all, keys, e.key, by);
        let left = entrywalk::own_left(s, e, here);
        if !left.is_empty() {
            let k = Sketched::new(e.key, left);
            let d = draw_values(k, s, e, false, [true; VALUES], here);
            let n = sums.count;
            let more = sums.with(d);
            sums = more;
            if n < ENTRIES {
                items[n] = d;
            }
        }
    }
    Sketch { items, sums }
}

// What a reset leaves of the entries.
pub fn draw_reset(s: &[u8], l: Layout, by: Clock) -> Sketch
    requires { Lies s.now (read_map s.now).map l × ((length s.now ≤ map_longest) × Lawful (dots_of by)) }
    ensures { (t : List ℕ) → Sketches s.now t (sift stays (cut_entry (dots_of by)) (entries_in (read_map s.now).map))
        result }
{
    let none = Keys::new();
    draw_cut(s, l, true, none, by)
}

// What a removal leaves of the entries.
pub fn draw_removed(s: &[u8], l: Layout, r: Removal) -> Sketch
    requires { Lies s.now (read_map s.now).map l × ((length s.now ≤ map_longest) × Lawful (under_of r)) }
    ensures { (t : List ℕ) → Sketches s.now t (remove_entries r (entries_in (read_map s.now).map)) result }
{
    let keys = r.keys;
    let clock = r.clock;
    draw_cut(s, l, false, keys, clock)
}
