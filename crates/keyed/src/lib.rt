// A key's records where they lie, and the clock of its entry.
#![tactic(auto)]

ghost use Rattle.std.specs.Prelude.{◌≡◌, List, ℕ, ◌*◌, ◌≤◌, ◌<◌, length};
ghost use Rattle.listlaws.specs.Order.{Ascending, by};
ghost use Rattle.clock.specs.Dots.{clock_of};
ghost use Rattle.entries.specs.declared.Entry.{Entry};
ghost use Rattle.entries.specs.Entries.{entry_at};
ghost use Rattle.map.specs.Model.{entries_in};
ghost use Rattle.asking.specs.Asking.{clock_at};
ghost use Rattle.mapimage.specs.MapImage.{flat_from, entry_records};
ghost use Rattle.maprecords.specs.Related.{read_map};
ghost use Rattle.walks.specs.Walk.{part};
ghost use Rattle.layout.specs.Whole.{Lies};
ghost use Rattle.keyed.specs.Keyed.{EntryLies, Owned, Stops};

use clock::Clock;
use walks::{BY_KEY, Layout, Span};

// The records of a key's entry: its dots, its values, and the values' dots.
#[derive(Clone, Copy)]
pub struct Spans {
    pub dots: Span,
    pub values: Span,
    pub clocks: Span,
}

// An entry on a walk along the dots of all: its key, its clock, and where the next one's begin.
#[derive(Clone, Copy)]
pub struct Stop {
    pub key: u32,
    pub clock: Clock,
    pub next: usize,
}

// Where the records of a key stand among those of some entries.
fn key_span(s: &[u8], key: u32, from: usize, end: usize) -> Span
    requires { (from ≤ end) × (end * 16 ≤ length s.now) }
    ensures { ((from ≤ result.from) × ((result.from ≤ result.to) × (result.to ≤ end)))
        × ((kind : ℕ) (l : List Entry) → Ascending (by (λ e. e.key)) l → part s.now from end ≡ flat_from (entry_records kind) 0 l
        → part s.now result.from result.to ≡ entry_records kind 0 (entry_at key l)) }
{
    let bound = key as u64;
    let first = walks::first_from(s, BY_KEY, bound, from, end);
    let behind = walks::first_from(s, BY_KEY, bound + 1, first, end);
    Span {
        from: first,
        to: behind,
    }
}

// Where the records of a key's entry stand; nowhere where there is none.
pub fn spans_of(s: &[u8], l: Layout, key: u32) -> Spans
    requires { Lies s.now (read_map s.now).map l }
    ensures { EntryLies s.now (entry_at key (entries_in (read_map s.now).map)) result }
{
    let third = l.third;
    let fourth = l.fourth;
    let dots = key_span(s, key, l.second, third);
    let values = key_span(s, key, third, fourth);
    let clocks = key_span(s, key, fourth, l.fifth);
    Spans {
        dots,
        values,
        clocks,
    }
}

// The clock of a key's entry, empty where there is none.
pub fn clock_at(s: &[u8], l: Layout, key: u32) -> Clock
    requires { Lies s.now (read_map s.now).map l }
    ensures { result ≡ clock_of (clock_at (read_map s.now).map key) }
{
    let at = spans_of(s, l, key);
    let dots = at.dots;
    let from = dots.from * 16;
    let to = dots.to * 16;
    runs::clock_of(&s[from..to])
}

// The entry whose dots begin at a place.
pub fn stop_at(s: &[u8], at: usize, end: usize) -> Stop
    requires { (at < end) × ((l : List Entry) × Owned s.now at end l) }
    ensures { (l : List Entry) → Owned s.now at end l → Stops s.now at end l result }
{
    let first = records::read_record(s, at * 16);
    let key = first.key;
    let next = walks::first_from(s, BY_KEY, key as u64 + 1, at, end);
    let from = at * 16;
    let to = next * 16;
    let clock = runs::clock_of(&s[from..to]);
    Stop { key, clock, next }
}
