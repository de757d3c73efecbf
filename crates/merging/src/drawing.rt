// The entries of a merge, drawn key by key.
ghost use Rattle.std.specs.Prelude.{◌≡◌, false, List, [], ℕ, ◌≤◌, length};
ghost use Rattle.listlaws.specs.Sift.{sift};
ghost use Rattle.clock.specs.declared.Dot.{Dot};
ghost use Rattle.limits.specs.Limits.{dot_limit};
ghost use Rattle.clock.specs.Dots.{dots_of, clock_of, is_empty, join_dots};
ghost use Rattle.clock.specs.Lawful.{Lawful};
ghost use Rattle.register.specs.Values.{alive, merge_values};
ghost use Rattle.entries.specs.declared.Entry.{Entry};
ghost use Rattle.removals.specs.declared.Removal.{Removal};
ghost use Rattle.entries.specs.Model.{values_in};
ghost use Rattle.map.specs.Model.{seen_by, waiting_in};
ghost use Rattle.mapimage.specs.MapImage.{map_longest};
ghost use Rattle.maprecords.specs.Related.{read_map};
ghost use Rattle.layout.specs.Whole.{LaidOut};
ghost use Rattle.queued.specs.Queue.{cuts_for, Queued, Marked};
ghost use Rattle.entrywalk.specs.Walking.{LiesAt};
ghost use Rattle.sketch.specs.Drawn.{clock_apart, Draws, Sketches};
ghost use Rattle.merging.specs.Coming.{merged_entries};
ghost use Rattle.leaving.specs.Left.{value_left};

use crate::Coming;
use clock::Clock;
use entrywalk::Cursor;
use layout::Laid;
use limits::{ENTRIES, WAITING};
use queued::Queue;
use sketch::{Sketch, Sketched, Sums};

// What is left of a clock where their removals that list a key have cut it, and then ours.
fn clock_left(
    s: &[u8],
    cs: Queue,
    ours: [bool; WAITING],
    t: &[u8],
    ds: Queue,
    theirs: [bool; WAITING],
    clock: Clock,
) -> Clock
    requires { ((w : List Removal) × Queued s.now cs w) × ((w : List Removal) × Queued t.now ds w) }
    ensures { (v w : List Removal) (key : ℕ) (d : List Dot) → Queued t.now ds v → Queued s.now cs w
        → Marked v key theirs → Marked w key ours → clock ≡ clock_of d → result ≡ clock_of (cuts_for w key (cuts_for v key d)) }
{
    let half = queued::cut_listed(t, ds, theirs, clock);
    queued::cut_listed(s, cs, ours, half)
}

// What is left of a key's values, behind an entry that has none.
fn draw_both(
    bare: Sketched,
    s: &[u8],
    t: &[u8],
    c: Coming,
    cs: Queue,
    ours: [bool; WAITING],
    ds: Queue,
    theirs: [bool; WAITING],
) -> Sketched
    requires { (bare.len ≡ 0) × ((((e : Entry) × LiesAt s.now e c.x) × ((e : Entry) × LiesAt t.now e c.y))
        × (((Lawful (dots_of c.gone)) × ((length s.now ≤ map_longest) × (length t.now ≤ map_longest)))
        × (((w : List Removal) × Queued s.now cs w) × ((w : List Removal) × Queued t.now ds w)))) }
    ensures { (key : ℕ) (d : List Dot) (e f : Entry) (u w : List Removal) → Draws s.now t.now key d [] bare
        → LiesAt s.now e c.x → LiesAt t.now f c.y → f.key ≡ e.key
        → Queued t.now ds u → Queued s.now cs w → Marked u e.key theirs → Marked w e.key ours
        → Draws s.now t.now key d (sift alive (value_left w u e.key (dots_of c.gone))
        (merge_values (values_in e) (values_in f))) result }
{
    let x = c.x;
    let y = c.y;
    let gone = c.gone;
    let xs = x.starts;
    let ys = y.starts;
    let xv = x.values;
    let yv = y.values;
    let st = standing::stands(s, xs, xv.to - xv.from, t, ys, yv.to - yv.from);
    let mine = st.ours;
    let yours = st.theirs;
    let some = leaving::draw_values(bare, s, x, false, mine, gone, t, ds, theirs, s, cs, ours);
    leaving::draw_values(some, t, y, true, yours, gone, t, ds, theirs, s, cs, ours)
}

// What a merge leaves of the key that comes next, with their removals and then ours; without values where nothing is left of its clock.
fn draw_key(
    s: &[u8],
    t: &[u8],
    c: Coming,
    cs: Queue,
    ours: [bool; WAITING],
    ds: Queue,
    theirs: [bool; WAITING],
) -> Sketched
    requires { (((e : Entry) × LiesAt s.now e c.x) × ((e : Entry) × LiesAt t.now e c.y))
        × (((Lawful (dots_of c.gone)) × ((length s.now ≤ map_longest) × (length t.now ≤ map_longest)))
        × (((w : List Removal) × Queued s.now cs w) × ((w : List Removal) × Queued t.now ds w))) }
    ensures { (d : List Dot) (e f : Entry) (u w : List Removal) → c.keep ≡ clock_of d → LiesAt s.now e c.x
        → LiesAt t.now f c.y → f.key ≡ e.key
        → Queued t.now ds u → Queued s.now cs w → Marked u e.key theirs → Marked w e.key ours
        → (clock_apart result.own ≡ clock_of (cuts_for w e.key (cuts_for u e.key d))) × (is_empty (cuts_for w e.key (cuts_for u e.key d)) ≡ false
        → Draws s.now t.now c.x.key (cuts_for w e.key (cuts_for u e.key d))
        (sift alive (value_left w u e.key (dots_of c.gone)) (merge_values (values_in e) (values_in f))) result) }
{
    let x = c.x;
    let keep = c.keep;
    let left = clock_left(s, cs, ours, t, ds, theirs, keep);
    let bare = Sketched::new(x.key, left);
    if left.is_empty() {
        return bare;
    }
    draw_both(bare, s, t, c, cs, ours, ds, theirs)
}

// The entries of a merge, key by key.
fn draw_keys(s: &[u8], t: &[u8], a: Laid, b: Laid, cs: Queue, ds: Queue) -> Sketch
    requires { (LaidOut s.now (read_map s.now).map a × LaidOut t.now (read_map t.now).map b)
        × ((Queued s.now cs (waiting_in (read_map s.now).map) × Queued t.now ds (waiting_in (read_map t.now).map))
        × (((length s.now ≤ map_longest) × (length t.now ≤ map_longest))
        × (length (join_dots (seen_by (read_map s.now).map) (seen_by (read_map t.now).map)) ≤ dot_limit))) }
    ensures { Sketches s.now t.now (merged_entries (read_map s.now).map (read_map t.now).map) result }
{
    let l = a.layout;
    let m = b.layout;
    let mine = a.clock;
    let yours = b.clock;
    let third = l.third;
    let last = m.third;
    let nothing = Clock::new();
    let blank = Sketched::new(0, nothing);
    let mut items: [Sketched; ENTRIES] = [blank; ENTRIES];
    let mut sums = Sums::new();
    let mut f = l.sixth;
    let mut g = m.sixth;
    let mut x = Cursor {
        own: l.second,
        value: l.third,
        dot: l.fourth,
    };
    let mut y = Cursor {
        own: m.second,
        value: m.third,
        dot: m.fourth,
    };
    // A `while`: each of the two maps is walked at its own pace.
    while (x.own < third) | (y.own < last) {
        let c = crate::stepping::next(s, t, l, m, mine, yours, x, y);
        let e = c.x;
        let h = c.y;
        let on = e.next;
        let off = h.next;
        x = on;
        y = off;
        let ours = queued::listers(s, f, l.end, e.key);
        let theirs = queued::listers(t, g, m.end, e.key);
        f = ours.next;
        g = theirs.next;
        let under = ours.under;
        let over = theirs.under;
        let k = draw_key(s, t, c, cs, under, ds, over);
        let own = k.own;
        if own.size() != 0 {
            let n = sums.count;
            let more = sums.with(k);
            sums = more;
            if n < ENTRIES {
                items[n] = k;
            }
        }
    }
    Sketch { items, sums }
}

// The entries of a merge. Called at two places, the drawing keeps a frame of its own, and what is written afterwards does not stand on top of it.
pub fn draw_merged(s: &[u8], t: &[u8], a: Laid, b: Laid, cs: Queue, ds: Queue) -> Sketch
    requires { (LaidOut s.now (read_map s.now).map a × LaidOut t.now (read_map t.now).map b)
        × ((Queued s.now cs (waiting_in (read_map s.now).map) × Queued t.now ds (waiting_in (read_map t.now).map))
        × (((length s.now ≤ map_longest) × (length t.now ≤ map_longest))
        × (length (join_dots (seen_by (read_map s.now).map) (seen_by (read_map t.now).map)) ≤ dot_limit))) }
    ensures { Sketches s.now t.now (merged_entries (read_map s.now).map (read_map t.now).map) result }
{
    if cs.len + ds.len == 0 {
        let none = Queue::none();
        return draw_keys(s, t, a, b, none, none);
    }
    draw_keys(s, t, a, b, cs, ds)
}
