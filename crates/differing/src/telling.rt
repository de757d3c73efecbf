// The keys of two maps with their classes, side by side along both images, counted and written.
ghost use Rattle.std.specs.Prelude.{◌≡◌, Bool, true, cond, ◌||◌, List, ◌+◌, ◌*◌, ◌≤◌, ltb, length};
ghost use Rattle.entries.specs.declared.Entry.{Entry};
ghost use Rattle.map.specs.Model.{entries_in};
ghost use Rattle.records.specs.Writing.{Wrote};
ghost use Rattle.maprecords.specs.Related.{read_map};
ghost use Rattle.answers.specs.Answer.{Answered};
ghost use Rattle.layout.specs.Whole.{Lies};
ghost use Rattle.entrywalk.specs.Walking.{Ahead};
ghost use Rattle.differences.specs.Differences.{differences_of, difference_bytes, all_told, differences_answer};
ghost use Rattle.differing.specs.Walking.{Comes, told_most};

use crate::Next;
use differences::Difference;
use entrywalk::Cursor;
use walks::Layout;

// The bytes of a record of the report.
const RECORD: usize = 5;

// The class of a key that both maps have.
fn class_of(same: bool) -> u8
    ensures { result ≡ cond same 0 3 }
{
    if same { 0 } else { 3 }
}

// The next key of either map, with its class.
fn next(s: &[u8], t: &[u8], l: Layout, m: Layout, x: Cursor, y: Cursor) -> Next
    requires { ((ltb x.own l.third || ltb y.own m.third) ≡ true)
        × ((es fs : List Entry) × Ahead s.now l x es × Ahead t.now m y fs) }
    ensures { (es fs : List Entry) → Ahead s.now l x es → Ahead t.now m y fs
        → Comes s.now t.now l m x y es fs result }
{
    let p = entrywalk::head(s, x.own, l.third);
    let q = entrywalk::head(t, y.own, m.third);
    if p < q {
        let e = entrywalk::entry_at(s, l, x);
        let told = Difference {
            class: 1,
            key: e.key,
        };
        let on = e.next;
        return Next { told, x: on, y };
    }
    if q < p {
        let f = entrywalk::entry_at(t, m, y);
        let told = Difference {
            class: 2,
            key: f.key,
        };
        let off = f.next;
        return Next { told, x, y: off };
    }
    let e = entrywalk::entry_at(s, l, x);
    let f = entrywalk::entry_at(t, m, y);
    let same = crate::pairing::same_entry(s, e, t, f);
    let told = Difference {
        class: class_of(same),
        key: e.key,
    };
    let on = e.next;
    let off = f.next;
    Next {
        told,
        x: on,
        y: off,
    }
}

// How many keys are told.
fn count(s: &[u8], t: &[u8], l: Layout, m: Layout) -> usize
    requires { Lies s.now (read_map s.now).map l × Lies t.now (read_map t.now).map m }
    ensures { (result ≡ length (differences_of (entries_in (read_map s.now).map) (entries_in (read_map t.now).map)))
        × (result ≤ told_most) }
{
    let third = l.third;
    let last = m.third;
    let mut x = Cursor {
        own: l.second,
        value: l.third,
        dot: l.fourth,
    };
    let mut y = Cursor {
        own: m.second,
        value: m.third,
        dot: m.fourth,
    };
    let mut n: usize = 0;
    // A `while`: each of the two maps is walked at its own pace.
    while (x.own < third) | (y.own < last) {
        let c = next(s, t, l, m, x, y);
        let told = c.told;
        let on = c.x;
        let off = c.y;
        x = on;
        y = off;
        if told.class != 0 {
            n += 1;
        }
    }
    n
}

// Writes a key with its class at `at`, and answers the place behind it.
fn write_told(out: &mut [u8], at: usize, t: Difference) -> usize
    requires { at + 5 ≤ length out.old }
    ensures { Wrote at (difference_bytes t) out.old out.new result }
{
    records::put8(out, at, t.class);
    records::put32(out, at + 1, t.key);
    at + RECORD
}

// Writes every key that is told.
fn write(s: &[u8], t: &[u8], l: Layout, m: Layout, out: &mut [u8]) -> usize
    requires { (Lies s.now (read_map s.now).map l × Lies t.now (read_map t.now).map m)
        × (length (differences_of (entries_in (read_map s.now).map) (entries_in (read_map t.now).map)) * 5 ≤ length out.old) }
    ensures { Wrote 0 (all_told (differences_of (entries_in (read_map s.now).map) (entries_in (read_map t.now).map)))
        out.old out.new result }
{
    let third = l.third;
    let last = m.third;
    let mut x = Cursor {
        own: l.second,
        value: l.third,
        dot: l.fourth,
    };
    let mut y = Cursor {
        own: m.second,
        value: m.third,
        dot: m.fourth,
    };
    let mut place: usize = 0;
    // A `while`: each of the two maps is walked at its own pace.
    while (x.own < third) | (y.own < last) {
        let c = next(s, t, l, m, x, y);
        let told = c.told;
        let on = c.x;
        let off = c.y;
        x = on;
        y = off;
        if told.class != 0 {
            place = write_told(out, place, told);
        }
    }
    place
}

// What differs between two maps: counted, and written where there is room for all.
pub fn differences(map: &[u8], other: &[u8], out: &mut [u8]) -> u64
    ensures { Answered (differences_answer map.now other.now) out.old out.new result }
{
    let a = layout::lay_out(map);
    if a.number != 0 {
        return answers::word(a.number);
    }
    let b = layout::lay_out(other);
    if b.number != 0 {
        return answers::word(b.number);
    }
    let l = a.layout;
    let m = b.layout;
    let n = count(map, other, l, m);
    if out.len() < n * RECORD {
        return answers::word(10);
    }
    write(map, other, l, m, out) as u64
}
