// Whether two entries are the same where they lie: their clocks, and their registers with every pair counted.
ghost use Rattle.std.specs.Prelude.{◌≡◌, ◌+◌, ◌<◌, length, get_or};
ghost use Rattle.clock.specs.Dots.{order_of};
ghost use Rattle.register.specs.Values.{no_value};
ghost use Rattle.entries.specs.declared.Entry.{Entry};
ghost use Rattle.entries.specs.Model.{dots_in, values_in};
ghost use Rattle.equality.specs.Equality.{equal_clock, same_pair, times_in, as_often};
ghost use Rattle.walks.specs.Walk.{between};
ghost use Rattle.entrywalk.specs.Walking.{LiesAt};
ghost use Rattle.differences.specs.Differences.{same_entry};

use clock::Order;
use entrywalk::Lain;
use register::Content;

pub fn is_equal(o: Order) -> bool
    ensures { result ≡ equal_clock o }
{
    matches!(o, Order::Equal)
}

// What the record of the value at place i says: its number and its origin.
fn content_at(s: &[u8], x: Lain, i: usize) -> Content
    requires { (e : Entry) × LiesAt s.now e x × (i < length (values_in e)) }
    ensures { (e : Entry) → LiesAt s.now e x → i < length (values_in e) → result ≡ (get_or (values_in e) i no_value).value }
{
    let r = records::read_record(s, (x.values.from + i) * 16);
    Content {
        number: r.number,
        origin: r.actor,
    }
}

// The dots of the value at place i where they lie.
fn run_at(s: &[u8], x: Lain, i: usize) -> &[u8]
    requires { (e : Entry) × LiesAt s.now e x × (i < length (values_in e)) }
    ensures { result.now ≡ between s.now (get_or x.starts i 0) (get_or x.starts (i + 1) 0) }
{
    &s[x.starts[i] * 16..x.starts[i + 1] * 16]
}

// Whether the values at two places are the same pair of a value and its clock.
fn same_at(s: &[u8], x: Lain, i: usize, t: &[u8], y: Lain, j: usize) -> bool
    requires { ((e : Entry) × LiesAt s.now e x × (i < length (values_in e))) × ((f : Entry) × LiesAt t.now f y × (j < length (values_in f))) }
    ensures { (e f : Entry) → LiesAt s.now e x → i < length (values_in e) → LiesAt t.now f y → j < length (values_in f)
        → result ≡ same_pair (get_or (values_in e) i no_value) (get_or (values_in f) j no_value) }
{
    let v = content_at(s, x, i);
    let w = content_at(t, y, j);
    let o = comparing::compare_runs(run_at(s, x, i), run_at(t, y, j));
    is_equal(o) & ((v.number == w.number) & (v.origin == w.origin))
}

// How many times the value at place i of one entry stands in another under the same clock.
fn times(s: &[u8], x: Lain, i: usize, t: &[u8], y: Lain) -> usize
    requires { ((e : Entry) × LiesAt s.now e x × (i < length (values_in e))) × ((f : Entry) × LiesAt t.now f y) }
    ensures { (e f : Entry) → LiesAt s.now e x → i < length (values_in e) → LiesAt t.now f y
        → result ≡ times_in (values_in f) (get_or (values_in e) i no_value) }
{
    let mut count: usize = 0;
    for k in 0..y.values.to - y.values.from {
        if same_at(s, x, i, t, y, k) {
            count += 1;
        }
    }
    count
}

// Whether every value of the first entry stands as often in both.
fn as_often(s: &[u8], x: Lain, t: &[u8], y: Lain) -> bool
    requires { ((e : Entry) × LiesAt s.now e x) × ((f : Entry) × LiesAt t.now f y) }
    ensures { (e f : Entry) → LiesAt s.now e x → LiesAt t.now f y
        → result ≡ as_often (values_in e) (values_in f) (values_in e) }
{
    for i in 0..x.values.to - x.values.from {
        let here = times(s, x, i, s, x);
        let there = times(s, x, i, t, y);
        if here != there {
            return false;
        }
    }
    true
}

// Whether two entries have the same clock.
fn same_clock(s: &[u8], x: Lain, t: &[u8], y: Lain) -> bool
    requires { ((e : Entry) × LiesAt s.now e x) × ((f : Entry) × LiesAt t.now f y) }
    ensures { (e f : Entry) → LiesAt s.now e x → LiesAt t.now f y → result ≡ equal_clock (order_of (dots_in e) (dots_in f)) }
{
    let ours = &s[x.dots.from * 16..x.dots.to * 16];
    let theirs = &t[y.dots.from * 16..y.dots.to * 16];
    is_equal(comparing::compare_runs(ours, theirs))
}

// Whether two entries are the same, register order ignored.
pub fn same_entry(s: &[u8], x: Lain, t: &[u8], y: Lain) -> bool
    requires { ((e : Entry) × LiesAt s.now e x) × ((f : Entry) × LiesAt t.now f y) }
    ensures { (e f : Entry) → LiesAt s.now e x → LiesAt t.now f y → result ≡ same_entry e f }
{
    if !same_clock(s, x, t, y) {
        return false;
    }
    as_often(s, x, t, y) & as_often(t, y, s, x)
}
