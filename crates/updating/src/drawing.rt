// The entries of an update, drawn key by key.
ghost use Rattle.std.specs.Prelude.{◌≡◌, true, false, List, [], ℕ, ◌+◌, ◌≤◌, ◌<◌, length};
ghost use Rattle.listlaws.specs.Sift.{sift};
ghost use Rattle.clock.specs.declared.Dot.{Dot};
ghost use Rattle.limits.specs.Limits.{dot_limit, value_limit};
ghost use Rattle.clock.specs.Dots.{clock_of, is_empty, counter_in, add_dot};
ghost use Rattle.register.specs.Values.{alive, put_values};
ghost use Rattle.entries.specs.declared.Entry.{Entry};
ghost use Rattle.removals.specs.declared.Removal.{Removal};
ghost use Rattle.entries.specs.declared.Update.{Update};
ghost use Rattle.entries.specs.Model.{values_in};
ghost use Rattle.entries.specs.Entries.{stays, run, put_entries};
ghost use Rattle.map.specs.Model.{seen_by, entries_in, waiting_in};
ghost use Rattle.map.specs.Valid.{UpdateWithin};
ghost use Rattle.records.specs.Records.{records_of};
ghost use Rattle.opimage.specs.OpImage.{update_records};
ghost use Rattle.mapimage.specs.MapImage.{map_longest};
ghost use Rattle.maprecords.specs.Related.{read_map};
ghost use Rattle.layout.specs.Whole.{Lies};
ghost use Rattle.marks.specs.Marks.{picked};
ghost use Rattle.queued.specs.Queue.{Keyed, cuts_for, Queued, Marked};
ghost use Rattle.entrywalk.specs.Walking.{LiesAt};
ghost use Rattle.sketch.specs.Drawn.{value_named, Placed, clock_apart, Draws, Sketches};
ghost use Rattle.leaving.specs.Left.{value_left};
ghost use Rattle.updating.specs.Updated.{dots_to, values_to, PutLies};

use crate::Next;
use clock::{Clock, Dot};
use entries::Update;
use entrywalk::{Cursor, Lain};
use limits::{DOTS, ENTRIES, VALUES, WAITING};
use queued::Queue;
use sketch::{Sketch, Sketched, Source, Sums};
use walks::Layout;

// The clock of an entry, with the update's dot where the put goes there.
fn clock_to(s: &[u8], x: Lain, put: bool, dot: Dot) -> Clock
    requires { (e : Entry) × LiesAt s.now e x }
    ensures { (u : Update) (e : Entry) → u.dot ≡ dot → LiesAt s.now e x → length (dots_to u put e) ≤ dot_limit
        → result ≡ clock_of (dots_to u put e) }
{
    let own = entrywalk::own_clock(s, x);
    if put {
        let grown = own.add(dot);
        return grown.clock;
    }
    own
}

// What the waiting removals that list a key leave of those values of its entry that stand, behind an entry that has none.
fn draw_standing(
    bare: Sketched,
    s: &[u8],
    x: Lain,
    stand: [bool; VALUES],
    q: Queue,
    under: [bool; WAITING],
) -> Sketched
    requires { (bare.len ≡ 0) × (((e : Entry) × LiesAt s.now e x)
        × ((length s.now ≤ map_longest) × ((w : List Removal) × Queued s.now q w))) }
    ensures { (result.len ≤ value_limit) × ((t : List ℕ) (key : ℕ) (d : List Dot) (e : Entry) (w : List Removal)
        → Draws s.now t key d [] bare → LiesAt s.now e x → Queued s.now q w → Marked w e.key under
        → Draws s.now t key d (sift alive (value_left w [] e.key []) (picked stand (values_in e))) result) }
{
    let nothing = Clock::new();
    let others = Queue::none();
    leaving::draw_values(
        bare,
        s,
        x,
        false,
        stand,
        nothing,
        s,
        others,
        [false; WAITING],
        s,
        q,
        under,
    )
}

// What the waiting removals that list a key leave of the put.
fn put_source(s: &[u8], op: &[u8], q: Queue, under: [bool; WAITING]) -> Source
    requires { ((u : Update) × PutLies op.now u) × ((w : List Removal) × Queued s.now q w) }
    ensures { ((result.second ≡ true) × ((result.from ≤ result.to) × (result.to ≤ result.from + dot_limit)))
        × ((u : Update) (w : List Removal) (key : ℕ) → PutLies op.now u → Queued s.now q w → Marked w key under
        → Placed op.now result × (value_named op.now result ≡ value_left w [] key [] u.put)) }
{
    let m = op.len() / 16;
    let end = m * 16;
    let marks = queued::cut_listed_marks(s, q, under, &op[32..end], [true; DOTS]);
    Source {
        second: true,
        value: 1,
        from: 2,
        to: m as u16,
        marks,
    }
}

// The values of an entry where the put goes: those that remain beside it, and the put behind them unless it yields to one.
fn draw_put(
    bare: Sketched,
    s: &[u8],
    op: &[u8],
    x: Lain,
    q: Queue,
    under: [bool; WAITING],
) -> Sketched
    requires { ((bare.len ≡ 0) × (((e : Entry) × LiesAt s.now e x)
        × ((length s.now ≤ map_longest) × ((w : List Removal) × Queued s.now q w)))) × ((u : Update) × PutLies op.now u) }
    ensures { (u : Update) (key : ℕ) (d : List Dot) (e : Entry) (w : List Removal) → PutLies op.now u
        → Draws s.now op.now key d [] bare → LiesAt s.now e x → Queued s.now q w → Marked w e.key under
        → Draws s.now op.now key d (sift alive (value_left w [] e.key []) (put_values (values_in e) u.put)) result }
{
    let m = op.len() / 16;
    if m <= 2 {
        return draw_standing(bare, s, x, [true; VALUES], q, under);
    }
    let end = m * 16;
    let starts = x.starts;
    let values = x.values;
    let st = standing::put_stands(s, starts, values.to - values.from, &op[32..end]);
    let remain = st.remain;
    let drawn = draw_standing(bare, s, x, remain, q, under);
    if st.yields {
        return drawn;
    }
    let put = put_source(s, op, q, under);
    drawn.add(put)
}

// What an update leaves of the key that comes next; without values where nothing is left of its clock.
fn draw_key(s: &[u8], op: &[u8], c: Next, dot: Dot, q: Queue, under: [bool; WAITING]) -> Sketched
    requires { (((e : Entry) × LiesAt s.now e c.entry) × ((length s.now ≤ map_longest) × ((w : List Removal) × Queued s.now q w)))
        × ((u : Update) × PutLies op.now u) }
    ensures { (u : Update) (e : Entry) (w : List Removal) → u.dot ≡ dot → PutLies op.now u → LiesAt s.now e c.entry
        → length (dots_to u c.put e) ≤ dot_limit
        → Queued s.now q w → Marked w e.key under
        → (clock_apart result.own ≡ clock_of (cuts_for w e.key (dots_to u c.put e))) × (is_empty (cuts_for w e.key (dots_to u c.put e)) ≡ false
        → Draws s.now op.now c.entry.key (cuts_for w e.key (dots_to u c.put e))
        (sift alive (value_left w [] e.key []) (values_to u c.put e)) result) }
{
    let x = c.entry;
    let put = c.put;
    let grown = clock_to(s, x, put, dot);
    let left = queued::cut_listed(s, q, under, grown);
    let bare = Sketched::new(x.key, left);
    if left.is_empty() {
        return bare;
    }
    if put {
        return draw_put(bare, s, op, x, q, under);
    }
    draw_standing(bare, s, x, [true; VALUES], q, under)
}

// The entries of an update: each with the waiting removals that list its key, and the put where it goes; the removals' keys stand from one
// place to another.
fn draw_keys(
    s: &[u8],
    l: Layout,
    u: Update,
    op: &[u8],
    q: Queue,
    first: usize,
    last: usize,
) -> Sketch
    requires { (Lies s.now (read_map s.now).map l × Queued s.now q (waiting_in (read_map s.now).map))
        × ((UpdateWithin u × (update_records u ≡ records_of op.now))
        × (((counter_in (seen_by (read_map s.now).map) u.dot.actor < u.dot.counter)
        × (length (add_dot (seen_by (read_map s.now).map) u.dot) ≤ dot_limit))
        × ((length s.now ≤ map_longest) × ((length op.now ≤ map_longest)
        × Keyed s.now first last 0 (waiting_in (read_map s.now).map))))) }
    ensures { Sketches s.now op.now
        (sift stays (run (waiting_in (read_map s.now).map)) (put_entries u (entries_in (read_map s.now).map))) result }
{
    let dot = u.dot;
    let third = l.third;
    let nothing = Clock::new();
    let blank = Sketched::new(0, nothing);
    let mut items: [Sketched; ENTRIES] = [blank; ENTRIES];
    let mut sums = Sums::new();
    let mut f = first;
    let mut x = Cursor {
        own: l.second,
        value: l.third,
        dot: l.fourth,
    };
    let mut done = false;
    // A `while`: the map's entries and the put are each walked at their own pace.
    while (x.own < third) | !done {
        let c = crate::stepping::next(s, l, x, done, u.key);
        let e = c.entry;
        let put = c.put;
        let on = e.next;
        x = on;
        done = done | put;
        let listing = queued::listers(s, f, last, e.key);
        f = listing.next;
        let under = listing.under;
        let k = draw_key(s, op, c, dot, q, under);
        let own = k.own;
        if own.size() != 0 {
            let n = sums.count;
            let more = sums.with(k);
            sums = more;
            if n < ENTRIES {
                items[n] = k;
            }
        }
    }
    Sketch { items, sums }
}

// The entries of an update. Called at two places, the drawing keeps a frame of its own, and what is written afterwards does not stand on top of it.
pub fn draw_updated(s: &[u8], l: Layout, u: Update, op: &[u8], q: Queue) -> Sketch
    requires { (Lies s.now (read_map s.now).map l × Queued s.now q (waiting_in (read_map s.now).map))
        × ((UpdateWithin u × (update_records u ≡ records_of op.now))
        × (((counter_in (seen_by (read_map s.now).map) u.dot.actor < u.dot.counter)
        × (length (add_dot (seen_by (read_map s.now).map) u.dot) ≤ dot_limit))
        × ((length s.now ≤ map_longest) × (length op.now ≤ map_longest)))) }
    ensures { Sketches s.now op.now
        (sift stays (run (waiting_in (read_map s.now).map)) (put_entries u (entries_in (read_map s.now).map))) result }
{
    if q.len == 0 {
        let none = Queue::none();
        return draw_keys(s, l, u, op, none, 0, 0);
    }
    draw_keys(s, l, u, op, q, l.sixth, l.end)
}
