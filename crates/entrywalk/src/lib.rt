// The entries of an image where they lie: a walk from one to the next, and the clock of one.
#![tactic(auto)]

ghost use Rattle.std.specs.Prelude.{◌≡◌, List, [], ℕ, ◌*◌, ◌≤◌, ◌<◌, length};
ghost use Rattle.clock.specs.Dots.{dots_of, clock_of, cut_dots};
ghost use Rattle.clock.specs.Lawful.{Lawful};
ghost use Rattle.register.specs.declared.Value.{Value};
ghost use Rattle.limits.specs.Limits.{value_limit};
ghost use Rattle.entries.specs.declared.Entry.{Entry};
ghost use Rattle.entries.specs.Model.{dots_in, entry_as};
ghost use Rattle.records.specs.Records.{record_from};
ghost use Rattle.records.specs.Kinds.{value_dot_kind};
ghost use Rattle.mapimage.specs.MapImage.{flat_from, value_records};
ghost use Rattle.walks.specs.Walk.{part, Splits};
ghost use Rattle.entrywalk.specs.Walking.{beyond_keys, Runs, Ahead, LiesAt, Steps};

use clock::Clock;
use limits::{DOTS, VALUES};
use walks::{BEYOND_KEYS, BY_INDEX, BY_KEY, Layout, Span};

// One more place than an entry has values: where each one's dots begin, and where the last one's end.
pub const VALUE_STARTS: usize = VALUES + 1;

// Where the next entry's dots, values and values' dots begin: numbers of records.
#[derive(Clone, Copy)]
pub struct Cursor {
    pub own: usize,
    pub value: usize,
    pub dot: usize,
}

// An entry where it lies: its key, its dots, its values, where each value's dots begin, and where the next entry stands.
#[derive(Clone, Copy)]
pub struct Lain {
    pub key: u32,
    pub dots: Span,
    pub values: Span,
    pub starts: [usize; VALUE_STARTS],
    pub next: Cursor,
}

// The first place from `from` on whose field is at least `bound`, where the field does not fall: walked along, since it is near.
fn next_from(s: &[u8], field: u8, bound: u64, from: usize, end: usize) -> usize
    requires { (from ≤ end) × (end * 16 ≤ length s.now) }
    ensures { (from ≤ result) × ((result ≤ end) × ((at : ℕ) → Splits s.now field bound from end at → result ≡ at)) }
{
    for i in from..end {
        let r = records::read_record(s, i * 16);
        if bound <= walks::field_of(field, r) {
            return i;
        }
    }
    end
}

// Where the dots of each of n values begin, and where the last one's end.
pub fn starts_of(s: &[u8], n: usize, from: usize, end: usize) -> [usize; VALUE_STARTS]
    requires { (n ≤ value_limit) × ((from ≤ end) × (end * 16 ≤ length s.now)) }
    ensures { (key : ℕ) (l : List Value) → n ≡ length l → part s.now from end ≡ flat_from (value_records value_dot_kind key) 0 l
        → Runs s.now key l result }
{
    let mut starts: [usize; VALUE_STARTS] = [from; VALUE_STARTS];
    let mut at = from;
    for i in 0..n {
        at = next_from(s, BY_INDEX, i as u64 + 1, at, end);
        starts[i + 1] = at;
    }
    starts
}

// The entry at a place, and where the next one stands.
pub fn entry_at(s: &[u8], l: Layout, x: Cursor) -> Lain
    requires { (x.own < l.third) × ((es : List Entry) × Ahead s.now l x es) }
    ensures { (es : List Entry) → Ahead s.now l x es → Steps s.now l x es result }
{
    let own = x.own;
    let value = x.value;
    let dot = x.dot;
    let first = records::read_record(s, own * 16);
    let key = first.key;
    let above = key as u64 + 1;
    let dots = next_from(s, BY_KEY, above, own, l.third);
    let values = next_from(s, BY_KEY, above, value, l.fourth);
    let clocks = next_from(s, BY_KEY, above, dot, l.fifth);
    let starts = starts_of(s, values - value, dot, clocks);
    let next = Cursor {
        own: dots,
        value: values,
        dot: clocks,
    };
    Lain {
        key,
        dots: Span {
            from: own,
            to: dots,
        },
        values: Span {
            from: value,
            to: values,
        },
        starts,
        next,
    }
}

// The key of the record at a place, above every key where there is none.
pub fn head(s: &[u8], at: usize, end: usize) -> u64
    requires { end * 16 ≤ length s.now }
    ensures { (result ≤ beyond_keys) × ((result < beyond_keys → (at < end) × (result ≡ (record_from s.now (at * 16)).key))
        × (result ≡ beyond_keys → end ≤ at)) }
{
    if at < end {
        let r = records::read_record(s, at * 16);
        return r.key as u64;
    }
    BEYOND_KEYS
}

// No entry of a key, before the one where a walk stands.
pub fn none_at(key: u32, next: Cursor) -> Lain
    ensures { ((result.key ≡ key) × (result.next ≡ next)) × ((s : List ℕ) → LiesAt s (entry_as key [] []) result) }
{
    let none = Span { from: 0, to: 0 };
    Lain {
        key,
        dots: none,
        values: none,
        starts: [0; VALUE_STARTS],
        next,
    }
}

// The clock of an entry.
pub fn own_clock(s: &[u8], x: Lain) -> Clock
    requires { (e : Entry) × LiesAt s.now e x }
    ensures { (e : Entry) → LiesAt s.now e x → result ≡ clock_of (dots_in e) }
{
    let dots = x.dots;
    let from = dots.from * 16;
    let to = dots.to * 16;
    marks::pick_clock(&s[from..to], [true; DOTS])
}

// The clock of an entry, without what `by` has seen.
pub fn own_left(s: &[u8], x: Lain, by: Clock) -> Clock
    requires { ((e : Entry) × LiesAt s.now e x) × Lawful (dots_of by) }
    ensures { (e : Entry) → LiesAt s.now e x → result ≡ clock_of (cut_dots (dots_of by) (dots_in e)) }
{
    let dots = x.dots;
    let from = dots.from * 16;
    let to = dots.to * 16;
    let left = marks::cut_marks(&s[from..to], [true; DOTS], by);
    marks::pick_clock(&s[from..to], left)
}
