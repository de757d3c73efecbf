// Images of maps, written.
#![tactic(auto)]

ghost use Rattle.std.specs.Prelude.{◌≡◌, true, ◌+◌, ◌*◌, ◌^◌, ◌≤◌, ◌<◌, ltb, length};
ghost use Rattle.scan.specs.Each.{every};
ghost use Rattle.register.specs.Values.{values_of};
ghost use Rattle.entries.specs.Model.{entries_of};
ghost use Rattle.removals.specs.Model.{waiting_of};
ghost use Rattle.records.specs.Records.{bytes_of};
ghost use Rattle.records.specs.Writing.{Wrote};
ghost use Rattle.mapimage.specs.Least.{lesser, least_from};
ghost use Rattle.mapimage.specs.MapImage.{flat_from, value_records, entry_records, waiting_dots, key_number, key_numbers, waiting_keys, map_image};

use entries::{Entries, Entry};
use limits::{DOTS, ENTRIES, KEYS, VALUES, WAITING};
use map::Map;
use records::{CLOCK_DOT, ENTRY_DOT, Record, VALUE, VALUE_DOT, WAITING_DOT, WAITING_KEY};
use register::{Register, Value};
use removals::{Keys, Removal, Waiting};

// The longest image of a map.
pub const MAP_LONGEST: usize = (DOTS
    + ENTRIES * (DOTS + VALUES * (1 + DOTS))
    + WAITING * (DOTS + KEYS))
    * 16;

// Above every number of a waiting key.
pub const NO_KEY: u64 = 0x100_0000_0000;

fn write_value(out: &mut [u8], at: usize, kind: u8, key: u32, index: u8, v: Value) -> usize
    requires { at + length (value_records kind key index v) * 16 ≤ length out.old }
    ensures { Wrote at (bytes_of (value_records kind key index v)) out.old out.new result }
{
    if kind == VALUE {
        let x = v.value;
        let r = Record {
            kind: VALUE,
            index,
            actor: x.origin,
            key,
            number: x.number,
        };
        return records::write_record(out, at, r);
    }
    let clock = v.clock;
    clockimage::write_dots(out, at, VALUE_DOT, index, key, clock)
}

fn write_values(out: &mut [u8], at: usize, kind: u8, key: u32, register: Register) -> usize
    requires { at + length (flat_from (value_records kind key) 0 (values_of register)) * 16 ≤ length out.old }
    ensures { Wrote at (bytes_of (flat_from (value_records kind key) 0 (values_of register))) out.old out.new result }
{
    let mut next = at;
    for (i, v) in register.as_slice().iter().enumerate() {
        next = write_value(out, next, kind, key, i as u8, *v);
    }
    next
}

pub fn write_entry(out: &mut [u8], at: usize, kind: u8, e: Entry) -> usize
    requires { at + length (entry_records kind 0 e) * 16 ≤ length out.old }
    ensures { Wrote at (bytes_of (entry_records kind 0 e)) out.old out.new result }
{
    if kind == ENTRY_DOT {
        let clock = e.clock;
        return clockimage::write_dots(out, at, ENTRY_DOT, 0, e.key, clock);
    }
    let register = e.register;
    write_values(out, at, kind, e.key, register)
}

fn write_entries(out: &mut [u8], at: usize, kind: u8, entries: Entries) -> usize
    requires { at + length (flat_from (entry_records kind) 0 (entries_of entries)) * 16 ≤ length out.old }
    ensures { Wrote at (bytes_of (flat_from (entry_records kind) 0 (entries_of entries))) out.old out.new result }
{
    let mut next = at;
    for e in entries.as_slice() {
        next = write_entry(out, next, kind, *e);
    }
    next
}

fn write_waiting(out: &mut [u8], at: usize, waiting: Waiting) -> usize
    requires { at + length (flat_from waiting_dots 0 (waiting_of waiting)) * 16 ≤ length out.old }
    ensures { Wrote at (bytes_of (flat_from waiting_dots 0 (waiting_of waiting))) out.old out.new result }
{
    let mut next = at;
    for (i, w) in waiting.as_slice().iter().enumerate() {
        next = clockimage::write_dots(out, next, WAITING_DOT, i as u8, 0, w.clock);
    }
    next
}

// A waiting key and its index as one number.
pub fn key_number(index: u8, k: u32) -> u64
    ensures { (result ≡ key_number index k) × (result < 2 ^ 40) }
{
    k as u64 * 256 + index as u64
}

// The lesser of a number from `low` on and the least so far.
pub fn lesser(low: u64, m: u64, x: u64) -> u64
    ensures { result ≡ lesser low m x }
{
    if (low <= x) & (x < m) { x } else { m }
}

// The least number of a removal's keys from `low` on, where there is one below `m`, else `m`.
fn least_in(removal: Removal, index: u8, low: u64, m: u64) -> u64
    ensures { (result ≡ least_from low m (key_numbers index removal)) × (every (λ x. ltb x (2 ^ 40)) (key_numbers index removal) ≡ true) }
{
    let mut best = m;
    for k in removal.keys.as_slice() {
        best = lesser(low, best, key_number(index, *k));
    }
    best
}

// The least number of a waiting key from `low` on.
fn least(waiting: Waiting, low: u64) -> u64
    ensures { (result ≡ least_from low (2 ^ 40) (flat_from key_numbers 0 (waiting_of waiting)))
        × (every (λ x. ltb x (2 ^ 40)) (flat_from key_numbers 0 (waiting_of waiting)) ≡ true) }
{
    let mut best = NO_KEY;
    for (i, w) in waiting.as_slice().iter().enumerate() {
        best = least_in(*w, i as u8, low, best);
    }
    best
}

// Writes the keys of waiting removals, by key and then by index; answers the place behind them.
fn write_waiting_keys(out: &mut [u8], at: usize, waiting: Waiting) -> usize
    requires { at + length (waiting_keys (waiting_of waiting)) * 16 ≤ length out.old }
    ensures { Wrote at (bytes_of (waiting_keys (waiting_of waiting))) out.old out.new result }
{
    let mut next = at;
    let mut best = least(waiting, 0);
    // A `while`: the step goes from one number to the next greater one that some removal has.
    while best < NO_KEY {
        let r = Record {
            kind: WAITING_KEY,
            index: (best % 256) as u8,
            actor: 0,
            key: (best / 256) as u32,
            number: 0,
        };
        next = records::write_record(out, next, r);
        best = least(waiting, best + 1);
    }
    next
}

// Writes the image of a map at the start of `out`; answers its length.
pub fn write_map(map: Map, out: &mut [u8]) -> usize
    requires { length (map_image map) ≤ length out.old }
    ensures { Wrote 0 (map_image map) out.old out.new result }
{
    let clock = map.clock;
    let entries = map.entries;
    let waiting = map.waiting;
    let first = clockimage::write_dots(out, 0, CLOCK_DOT, 0, 0, clock);
    let second = write_entries(out, first, ENTRY_DOT, entries);
    let third = write_entries(out, second, VALUE, entries);
    let fourth = write_entries(out, third, VALUE_DOT, entries);
    let fifth = write_waiting(out, fourth, waiting);
    write_waiting_keys(out, fifth, waiting)
}
