// Walks along an image's records, section by section: how far a run of dots goes, the values of a key, the entries, what waits.
#![tactic(auto)]

ghost use Rattle.std.specs.Prelude.{◌≡◌, [], ℕ, Bool, ◌+◌, ◌*◌, ◌≤◌, ◌<◌, length, replicate};
ghost use Rattle.limits.specs.Limits.{dot_limit, value_limit, entry_limit, waiting_limit};
ghost use Rattle.clock.specs.Dots.{dots_of};
ghost use Rattle.records.specs.declared.Record.{Record};
ghost use Rattle.walks.specs.Walk.{part, field_of, dot_test, own_test, value_test, run_end, values_end, entries_end, Sections, Splits, waits_end};
ghost use Rattle.walks.specs.Walk.{key_test, keys_good};

use clock::Clock;
use limits::{DOTS, ENTRIES, KEYS, VALUES, WAITING};
use records::{ENTRY_DOT, Record, VALUE, VALUE_DOT, WAITING_DOT, WAITING_KEY};

// How many values of a key there are, and how many dots they have; not good where a value has none.
#[derive(Clone, Copy)]
pub struct Passed {
    pub good: bool,
    pub values: usize,
    pub dots: usize,
}

pub fn lower(a: usize, b: usize) -> usize
    ensures upper_bound { (result ≤ a) × (result ≤ b) }
    ensures value { result < a → result ≡ b }
{
    a.min(b)
}

// Whether a record is a dot's of this kind, index and key.
pub fn dot_test(kind: u8, index: u8, key: u32, r: Record) -> bool
    ensures { result ≡ dot_test kind index key r }
{
    (r.kind == kind) & ((r.index == index) & ((r.key == key) & (0 < r.number)))
}

// The same of an entry's dot, which the map clock covers.
pub fn own_test(clock: Clock, key: u32, r: Record) -> bool
    ensures { result ≡ own_test (dots_of clock) key r }
{
    let seen = clock.get(r.actor);
    dot_test(ENTRY_DOT, 0, key, r) & (r.number <= seen)
}

pub fn value_test(key: u32, index: u8, r: Record) -> bool
    ensures { result ≡ value_test key index r }
{
    (r.kind == VALUE) & ((r.index == index) & (r.key == key))
}

// How many records that pass a test stand from `at` on: at most as many as a clock holds, actors ascend.
fn passing_end<F: Fn(Record) -> bool>(s: &[u8], at: usize, end: usize, passes: F) -> usize
    requires callable { F.IsAlwaysCallable passes }
    requires inside { (at ≤ end) × (end * 16 ≤ length s.now) }
    ensures bound { (at + result ≤ end) × (result ≤ dot_limit) }
    ensures value { (test : Record → Bool) → ((r : Record) (b : Bool) → F.post passes r b → b ≡ test r)
        → result ≡ run_end test 0 dot_limit 0 (part s.now at end) }
{
    let top = DOTS.min(end - at);
    let mut low: u32 = 0;
    for i in 0..top {
        let r = records::read_record(s, (at + i) * 16);
        let good = passes(r) & (low <= r.actor as u32);
        if !good {
            return i;
        }
        low = r.actor as u32 + 1;
    }
    top
}

// How many dots of one kind, index and key stand from `at` on: at most as many as a clock holds, actors ascend.
pub fn run_end(s: &[u8], at: usize, end: usize, kind: u8, index: u8, key: u32) -> usize
    requires { (at ≤ end) × (end * 16 ≤ length s.now) }
    ensures { (result ≡ run_end (dot_test kind index key) 0 dot_limit 0 (part s.now at end)) × ((at + result ≤ end) × (result ≤ dot_limit)) }
{
    passing_end(s, at, end, |r| dot_test(kind, index, key, r))
}

// The same of an entry's dots, which the map clock covers.
pub fn own_end(s: &[u8], at: usize, end: usize, key: u32, clock: Clock) -> usize
    requires { (at ≤ end) × (end * 16 ≤ length s.now) }
    ensures { (result ≡ run_end (own_test (dots_of clock) key) 0 dot_limit 0 (part s.now at end)) × (at + result ≤ end) }
{
    passing_end(s, at, end, |r| own_test(clock, key, r))
}

// How many values of a key stand from `at` on, and how many dots they have from `dots` on: no more than a register holds, each with a dot.
pub fn values_end(s: &[u8], at: usize, end: usize, dots: usize, last: usize, key: u32) -> Passed
    requires { (at ≤ end) × ((end * 16 ≤ length s.now) × ((dots ≤ last) × (last * 16 ≤ length s.now))) }
    ensures { (result ≡ values_end key value_limit 0 0 (part s.now at end) (part s.now dots last))
        × ((at + result.values ≤ end) × (dots + result.dots ≤ last)) }
{
    let top = VALUES.min(end - at);
    let mut p: usize = 0;
    for i in 0..top {
        let r = records::read_record(s, (at + i) * 16);
        let k = i as u8;
        if !value_test(key, k, r) {
            return Passed {
                good: true,
                values: i,
                dots: p,
            };
        }
        let q = run_end(s, dots + p, last, VALUE_DOT, k, key);
        if q == 0 {
            return Passed {
                good: false,
                values: i,
                dots: p,
            };
        }
        p += q;
    }
    Passed {
        good: true,
        values: top,
        dots: p,
    }
}

// Where the records of kinds 2 to 6 begin, and where all end: numbers of records.
#[derive(Clone, Copy)]
pub struct Layout {
    pub second: usize,
    pub third: usize,
    pub fourth: usize,
    pub fifth: usize,
    pub sixth: usize,
    pub end: usize,
}

// How many entries there are; one more than there can be where they are no good.
pub fn count_entries(s: &[u8], l: Layout, clock: Clock) -> usize
    requires { Sections (length s.now) l }
    ensures { result ≡ entries_end (dots_of clock) entry_limit 0 0 (part s.now l.second l.third)
        (part s.now l.third l.fourth) (part s.now l.fourth l.fifth) }
{
    let third = l.third;
    let fourth = l.fourth;
    let fifth = l.fifth;
    let mut own = l.second;
    let mut values = third;
    let mut dots = fourth;
    let mut low: u64 = 0;
    let mut n: usize = 0;
    // A `while`: an entry has as many dots, values and values' dots as the records say.
    while (own < third) & (n < ENTRIES) {
        let r = records::read_record(s, own * 16);
        let key = r.key;
        let q = own_end(s, own, third, key, clock);
        let v = values_end(s, values, fourth, dots, fifth, key);
        let good = (0 < q) & ((low <= key as u64) & v.good);
        if !good {
            return ENTRIES + 1;
        }
        own += q;
        values += v.values;
        dots += v.dots;
        low = key as u64 + 1;
        n += 1;
    }
    if (own == third) & ((values == fourth) & (dots == fifth)) {
        n
    } else {
        ENTRIES + 1
    }
}

// How many removals wait; one more than there can be where their clocks are no good.
pub fn count_waiting(s: &[u8], l: Layout) -> usize
    requires { Sections (length s.now) l }
    ensures { result ≡ waits_end waiting_limit 0 [] (part s.now l.fifth l.sixth) }
{
    let sixth = l.sixth;
    let mut at = l.fifth;
    let mut last = Clock::new();
    let mut n: usize = 0;
    // A `while`: a removal has as many dots as the records say.
    while (at < sixth) & (n < WAITING) {
        let q = run_end(s, at, sixth, WAITING_DOT, n as u8, 0);
        let from = at * 16;
        let to = (at + q) * 16;
        let clock = runs::clock_of(&s[from..to]);
        if !removals::clock_before(last, clock) {
            return WAITING + 1;
        }
        at += q;
        last = clock;
        n += 1;
    }
    if at == sixth { n } else { WAITING + 1 }
}

pub fn key_test(n: usize, r: Record) -> bool
    ensures { result ≡ key_test n r }
{
    (r.kind == WAITING_KEY) & ((r.actor == 0) & ((r.number == 0) & ((r.index as usize) < n)))
}

// Whether the waiting keys ascend, each under one of n removals, none of which has too many.
pub fn keys_good(s: &[u8], at: usize, end: usize, n: usize) -> bool
    requires { (at ≤ end) × ((end * 16 ≤ length s.now) × (n ≤ waiting_limit)) }
    ensures { result ≡ keys_good n (replicate waiting_limit 0) 0 (part s.now at end) }
{
    let mut counts: [usize; WAITING] = [0; WAITING];
    let mut low: u64 = 0;
    for i in at..end {
        let r = records::read_record(s, i * 16);
        let k = r.index as usize;
        if !key_test(n, r) {
            return false;
        }
        let x = r.key as u64 * 256 + r.index as u64;
        let c = counts[k];
        if !((low <= x) & (c < KEYS)) {
            return false;
        }
        counts[k] = c + 1;
        low = x + 1;
    }
    true
}

// Above every key.
pub const BEYOND_KEYS: u64 = 0x1_0000_0000;

// What records ascend by: kinds in an image, keys in a kind, indexes under a key.
pub const BY_KIND: u8 = 0;

pub const BY_KEY: u8 = 1;

pub const BY_INDEX: u8 = 2;

pub fn field_of(field: u8, r: Record) -> u64
    ensures { result ≡ field_of field r }
{
    if field == BY_KIND {
        return r.kind as u64;
    }
    if field == BY_KEY {
        return r.key as u64;
    }
    r.index as u64
}

// From where to where some records stand: numbers of records.
#[derive(Clone, Copy)]
pub struct Span {
    pub from: usize,
    pub to: usize,
}

// The first place from `from` on whose field is at least `bound`, where the field does not fall.
pub fn first_from(s: &[u8], field: u8, bound: u64, from: usize, end: usize) -> usize
    requires { (from ≤ end) × (end * 16 ≤ length s.now) }
    ensures { (from ≤ result) × ((result ≤ end) × ((at : ℕ) → Splits s.now field bound from end at → result ≡ at)) }
{
    let mut low = from;
    let mut high = end;
    // A `while`: a binary search.
    while low < high {
        let mid = low + (high - low) / 2;
        let r = records::read_record(s, mid * 16);
        if field_of(field, r) < bound {
            low = mid + 1;
        } else {
            high = mid;
        }
    }
    low
}
