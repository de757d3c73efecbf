// A sketch written: dots, values and values' dots, one section behind the other.
ghost use Rattle.std.specs.Prelude.{◌≡◌, map, ◌++◌, ◌+◌, ◌*◌, ◌≤◌, length};
ghost use Rattle.clock.specs.Dots.{dots_of};
ghost use Rattle.limits.specs.Limits.{entry_limit};
ghost use Rattle.records.specs.Records.{bytes_of};
ghost use Rattle.records.specs.Writing.{Wrote};
ghost use Rattle.records.specs.Kinds.{clock_dot_kind};
ghost use Rattle.clockimage.specs.Image.{dot_records};
ghost use Rattle.mapimage.specs.MapImage.{flat_from, value_records, entry_records};
ghost use Rattle.sketch.specs.Drawn.{value_named, image_named, value_from, Placed, sources_of, drawn, Ready, items_of, AllReady, drawn_all};
ghost use Rattle.sketch.specs.Drawn.{sections_of};

use crate::{Sketch, Sketched, Source};
use clock::Clock;
use limits::ENTRIES;
use records::{CLOCK_DOT, ENTRY_DOT, Record, VALUE, VALUE_DOT, WAITING_DOT};

impl Sketch {
    pub fn size(self) -> usize
        ensures { (result ≡ length (items_of self)) × (result ≤ entry_limit) }
    {
        self.sums.count.min(ENTRIES)
    }

    // The entries in use.
    pub fn as_slice(&self) -> &[Sketched]
        ensures { result.now ≡ items_of self.now }
    {
        &self.items[..self.sums.count.min(ENTRIES)]
    }
}

// Writes the record of kind 3 of a value in s, or what is left of its dots.
fn write_in(s: &[u8], x: Source, kind: u8, key: u32, index: u8, out: &mut [u8], at: usize) -> usize
    requires { Placed s.now x × (at + length (value_records kind key index (value_named s.now x)) * 16 ≤ length out.old) }
    ensures { Wrote at (bytes_of (value_records kind key index (value_named s.now x))) out.old out.new result }
{
    if kind == VALUE {
        let place = x.value as usize * 16;
        let held = records::read_record(s, place);
        let r = Record {
            kind: VALUE,
            index,
            actor: held.actor,
            key,
            number: held.number,
        };
        return records::write_record(out, at, r);
    }
    let from = x.from as usize * 16;
    let to = x.to as usize * 16;
    let marks = x.marks;
    marks::write_picked(out, at, VALUE_DOT, index, key, &s[from..to], marks)
}

// The same in the image that the source names.
fn write_source(
    s: &[u8],
    t: &[u8],
    x: Source,
    kind: u8,
    key: u32,
    index: u8,
    out: &mut [u8],
    at: usize,
) -> usize
    requires { Placed (image_named s.now t.now x) x × (at + length (value_records kind key index (value_from s.now t.now x)) * 16 ≤ length
        out.old) }
    ensures { Wrote at (bytes_of (value_records kind key index (value_from s.now t.now x))) out.old
        out.new result }
{
    if x.second {
        return write_in(t, x, kind, key, index, out, at);
    }
    write_in(s, x, kind, key, index, out, at)
}

// The values of an entry, one after the other.
fn write_sources(s: &[u8], t: &[u8], e: Sketched, kind: u8, out: &mut [u8], at: usize) -> usize
    requires { Ready s.now t.now e
        × (at + length (flat_from (value_records kind e.key) 0 (map (value_from s.now t.now) (sources_of e))) * 16 ≤ length out.old) }
    ensures { Wrote at (bytes_of (flat_from (value_records kind e.key) 0 (map (value_from s.now t.now) (sources_of e))))
        out.old out.new result }
{
    let mut next = at;
    for (i, x) in e.as_slice().iter().enumerate() {
        next = write_source(s, t, *x, kind, e.key, i as u8, out, next);
    }
    next
}

// An entry's records of one kind.
fn write_entry(s: &[u8], t: &[u8], e: Sketched, kind: u8, out: &mut [u8], at: usize) -> usize
    requires { Ready s.now t.now e × (at + length (entry_records kind 0 (drawn s.now t.now e)) * 16 ≤ length out.old) }
    ensures { Wrote at (bytes_of (entry_records kind 0 (drawn s.now t.now e))) out.old
        out.new result }
{
    if kind == ENTRY_DOT {
        let own = e.own;
        let clock = own.clock();
        return clockimage::write_dots(out, at, ENTRY_DOT, 0, e.key, clock);
    }
    write_sources(s, t, e, kind, out, at)
}

// The records of a map's clock and of its entries: one section behind the other. The clock is written here, so that the sketch is copied once.
pub fn write_sketch(s: &[u8], t: &[u8], clock: Clock, sk: Sketch, out: &mut [u8]) -> usize
    requires { AllReady s.now t.now sk
        × (length (dot_records clock_dot_kind 0 0 (dots_of clock) ++ sections_of (drawn_all s.now t.now sk)) * 16 ≤ length out.old) }
    ensures { Wrote 0 (bytes_of (dot_records clock_dot_kind 0 0 (dots_of clock) ++ sections_of (drawn_all s.now t.now sk)))
        out.old out.new result }
{
    let mut next = clockimage::write_dots(out, 0, CLOCK_DOT, 0, 0, clock);
    for kind in ENTRY_DOT..WAITING_DOT {
        for e in sk.as_slice() {
            next = write_entry(s, t, *e, kind, out, next);
        }
    }
    next
}
