// What a reader of pieces is answered with at the end, from its lent memory, whatever stands in it.
#![tactic(auto)]

ghost use Rattle.std.specs.Prelude.{◌≡◌, true, ℕ, ◌+◌, ◌*◌, ◌^◌, ◌≤◌, ◌<◌, ltb, length};
ghost use Rattle.limits.specs.Limits.{dot_limit, entry_limit, waiting_limit};
ghost use Rattle.clock.specs.Dots.{clock_of, counter_in, covers};
ghost use Rattle.register.specs.Values.{register_of};
ghost use Rattle.removals.specs.Model.{under_of};
ghost use Rattle.records.specs.Records.{bytes_of};
ghost use Rattle.records.specs.Writing.{Wrote};
ghost use Rattle.scan.specs.Each.{every};
ghost use Rattle.mapimage.specs.Least.{least_from};
ghost use Rattle.mapimage.specs.MapImage.{flat_from, entry_records, waiting_dots, key_numbers, waiting_keys};
ghost use Rattle.maprecords.specs.Reading.{numbers_below};
ghost use Rattle.maprecords.specs.Related.{dotted, entry_whole, ascend};
ghost use Rattle.answers.specs.Sizes.{register_most, entries_most, value_size, entry_size};
ghost use Rattle.listlaws.specs.Fold.{total_of};
ghost use Rattle.memory.specs.Memory.{reader_room, dot_room, clock_room, value_room, clock_place, dot_at, dots_at, value_at, values_at};
ghost use Rattle.memory.specs.Memory.{entry_held_at};
ghost use Rattle.memory.specs.Memory.{entries_at, removal_at, waiting_at};
ghost use Rattle.answers.specs.Answer.{word_in};
ghost use Rattle.refusals.specs.Numbers.{number_told};
ghost use Rattle.delivery.specs.Delivery.{related_at, end_number, image_at, Ended};

use clock::{Clock, Dot};
use entries::Entry;
use limits::{DOTS, ENTRIES, KEYS, VALUES, WAITING};
use mapimage::NO_KEY;
use memory::{
    CLOCK, CLOCK_ROOM, DOT_ROOM, ENTRY_COUNT, ENTRY_PLACE, ENTRY_ROOM, LENGTH, LOST, NUMBER, OPEN,
    READER, REMOVAL_PLACE, REMOVAL_ROOM, VALUE_ROOM, WAITING_COUNT,
};
use records::{CLOCK_DOT, ENTRY_DOT, Record, VALUE, VALUE_DOT, WAITING_DOT, WAITING_KEY};
use refusals::Refusal;
use register::{Content, Register, Value};

fn dot_at(mem: &[u8; READER], at: usize) -> Dot
    requires { at + dot_room ≤ reader_room }
    ensures { result ≡ dot_at mem.now at }
{
    let actor = records::read16(mem, at);
    let counter = records::read64(mem, at + 2);
    Dot { actor, counter }
}

pub fn clock_at(mem: &[u8; READER], at: usize) -> Clock
    requires { at + clock_room ≤ reader_room }
    ensures { result ≡ clock_of (dots_at mem.now at) }
{
    let n = memory::count(mem, at, DOTS);
    let mut clock = Clock::new();
    for i in 0..n {
        let d = dot_at(mem, at + 1 + i * DOT_ROOM);
        let k = clock.len;
        clock.dots[k] = d;
        clock.len = k + 1;
    }
    clock
}

fn value_at(mem: &[u8; READER], at: usize) -> Value
    requires { at + value_room ≤ reader_room }
    ensures { result ≡ value_at mem.now at }
{
    let number = records::read64(mem, at);
    let clock = clock_at(mem, at + 8);
    let origin = records::read16(mem, at + 8 + CLOCK_ROOM);
    let value = Content { number, origin };
    Value { clock, value }
}

fn register_at(mem: &[u8; READER], j: usize) -> Register
    requires { j < entry_limit }
    ensures { result ≡ register_of (values_at mem.now j) }
{
    let at = ENTRY_PLACE + j * ENTRY_ROOM + 4 + CLOCK_ROOM;
    let n = memory::count(mem, at, VALUES);
    let mut register = Register::new();
    for i in 0..n {
        let v = value_at(mem, at + 1 + i * VALUE_ROOM);
        let k = register.len;
        register.values[k] = v;
        register.len = k + 1;
    }
    register
}

// An entry, by its place among the entries.
pub fn entry_at(mem: &[u8; READER], j: usize) -> Entry
    requires { j < entry_limit }
    ensures { result ≡ entry_held_at mem.now j }
{
    let at = ENTRY_PLACE + j * ENTRY_ROOM;
    let key = records::read32(mem, at);
    let clock = clock_at(mem, at + 4);
    let register = register_at(mem, j);
    Entry {
        key,
        clock,
        register,
    }
}

// The counter of an actor in the clock at a place.
fn counter_at(mem: &[u8; READER], at: usize, actor: u16) -> u64
    requires { at + clock_room ≤ reader_room }
    ensures { result ≡ counter_in (dots_at mem.now at) actor }
{
    let n = memory::count(mem, at, DOTS);
    for i in 0..n {
        let d = dot_at(mem, at + 1 + i * DOT_ROOM);
        if d.actor == actor {
            return d.counter;
        }
    }
    0
}

// Whether the clock at a place covers the one at another.
fn covers_at(mem: &[u8; READER], at: usize, other: usize) -> bool
    requires { (at + clock_room ≤ reader_room) × (other + clock_room ≤ reader_room) }
    ensures { result ≡ covers (dots_at mem.now at) (dots_at mem.now other) }
{
    let n = memory::count(mem, other, DOTS);
    for i in 0..n {
        let d = dot_at(mem, other + 1 + i * DOT_ROOM);
        if counter_at(mem, at, d.actor) < d.counter {
            return false;
        }
    }
    true
}

// Whether each value of an entry has a dot.
fn dotted_at(mem: &[u8; READER], j: usize) -> bool
    requires { j < entry_limit }
    ensures { result ≡ every dotted (values_at mem.now j) }
{
    let at = ENTRY_PLACE + j * ENTRY_ROOM + 4 + CLOCK_ROOM;
    let n = memory::count(mem, at, VALUES);
    for i in 0..n {
        let dots = memory::count(mem, at + 1 + i * VALUE_ROOM + 8, DOTS);
        if dots == 0 {
            return false;
        }
    }
    true
}

fn whole_at(mem: &[u8; READER], j: usize) -> bool
    requires { j < entry_limit }
    ensures { result ≡ entry_whole (dots_at mem.now clock_place) (entry_held_at mem.now j) }
{
    let own = ENTRY_PLACE + j * ENTRY_ROOM + 4;
    covers_at(mem, CLOCK, own) & dotted_at(mem, j)
}

fn entries_whole(mem: &[u8; READER]) -> bool
    ensures { result ≡ every (entry_whole (dots_at mem.now clock_place)) (entries_at mem.now) }
{
    let n = memory::count(mem, ENTRY_COUNT, ENTRIES);
    for j in 0..n {
        if !whole_at(mem, j) {
            return false;
        }
    }
    true
}

// Whether waiting clocks differ and ascend.
fn waiting_ascends(mem: &[u8; READER]) -> bool
    ensures { result ≡ ascend (waiting_at mem.now) }
{
    let n = memory::count(mem, WAITING_COUNT, WAITING);
    for k in 1..n {
        let before = clock_at(mem, REMOVAL_PLACE + (k - 1) * REMOVAL_ROOM);
        let after = clock_at(mem, REMOVAL_PLACE + k * REMOVAL_ROOM);
        if !removals::clock_before(before, after) {
            return false;
        }
    }
    true
}

fn related(mem: &[u8; READER]) -> bool
    ensures { result ≡ related_at mem.now }
{
    (mem[LOST] == 0) & (entries_whole(mem) & waiting_ascends(mem))
}

// The first refusal that applies, if one does.
pub fn verdict(mem: &[u8; READER]) -> Result<(), Refusal>
    ensures { number_told result ≡ end_number mem.now }
{
    let len = records::read32(mem, LENGTH) as usize;
    maprecords::check_length(len)?;
    scan::verdict(mem[NUMBER])?;
    if related(mem) {
        Ok(())
    } else {
        Err(Refusal::Unrelated)
    }
}

// What `size` gives at each of the first n places, added up.
fn total<F: Fn(usize) -> usize>(n: usize, size: F) -> usize
    requires few { n ≤ entry_limit }
    requires callable { (i : ℕ) → i < n → F.pre size i }
    requires small { (i r : ℕ) → i < n → F.post size i r → r ≤ 2 ^ 16 }
    ensures { (f : ℕ → ℕ) → ((i r : ℕ) → i < n → F.post size i r → r ≡ f i) → result ≡ total_of f (numbers_below n) }
{
    let mut total: usize = 0;
    for i in 0..n {
        total += size(i);
    }
    total
}

// How many records the values of an entry have.
fn count_values(mem: &[u8; READER], j: usize) -> usize
    requires { j < entry_limit }
    ensures { (result ≡ total_of value_size (values_at mem.now j)) × (result ≤ register_most) }
{
    let at = ENTRY_PLACE + j * ENTRY_ROOM + 4 + CLOCK_ROOM;
    let n = memory::count(mem, at, VALUES);
    total(
        n,
        |i| 1 + memory::count(mem, at + 1 + i * VALUE_ROOM + 8, DOTS),
    )
}

// How many records the entries have.
fn count_entries(mem: &[u8; READER]) -> usize
    ensures { (result ≡ total_of entry_size (entries_at mem.now)) × (result ≤ entries_most) }
{
    let n = memory::count(mem, ENTRY_COUNT, ENTRIES);
    total(
        n,
        |j| memory::count(mem, ENTRY_PLACE + j * ENTRY_ROOM + 4, DOTS) + count_values(mem, j),
    )
}

// How many dots the waiting removals have.
fn count_waiting(mem: &[u8; READER]) -> usize
    ensures { (result ≡ total_of (λ x. length (under_of x)) (waiting_at mem.now)) × (result ≤ waiting_limit * dot_limit) }
{
    let n = memory::count(mem, WAITING_COUNT, WAITING);
    total(
        n,
        |k| memory::count(mem, REMOVAL_PLACE + k * REMOVAL_ROOM, DOTS),
    )
}

// The least number of a removal's keys from `low` on, where there is one below `m`, else `m`.
fn least_in(mem: &[u8; READER], k: usize, low: u64, m: u64) -> u64
    requires { k < waiting_limit }
    ensures { (result ≡ least_from low m (key_numbers k (removal_at mem.now k)))
        × (every (λ x. ltb x (2 ^ 40)) (key_numbers k (removal_at mem.now k)) ≡ true) }
{
    let at = REMOVAL_PLACE + k * REMOVAL_ROOM + CLOCK_ROOM;
    let n = memory::count(mem, at, KEYS);
    let index = k as u8;
    let mut best = m;
    for i in 0..n {
        let key = records::read32(mem, at + 1 + i * 4);
        best = mapimage::lesser(low, best, mapimage::key_number(index, key));
    }
    best
}

// The least number of a waiting key from `low` on.
fn least(mem: &[u8; READER], low: u64) -> u64
    ensures { (result ≡ least_from low (2 ^ 40) (flat_from key_numbers 0 (waiting_at mem.now)))
        × (every (λ x. ltb x (2 ^ 40)) (flat_from key_numbers 0 (waiting_at mem.now)) ≡ true) }
{
    let n = memory::count(mem, WAITING_COUNT, WAITING);
    let mut best = NO_KEY;
    for k in 0..n {
        best = least_in(mem, k, low, best);
    }
    best
}

// How many waiting keys are written: one that stands twice in a removal counts once.
fn count_keys(mem: &[u8; READER]) -> usize
    ensures { (result ≡ length (waiting_keys (waiting_at mem.now))) × (result ≤ 2 ^ 40) }
{
    let mut total: usize = 0;
    let mut best = least(mem, 0);
    // A `while`: the least key that is left is found anew at each turn.
    while best < NO_KEY {
        total += 1;
        best = least(mem, best + 1);
    }
    total
}

fn image_length(mem: &[u8; READER]) -> usize
    ensures { result ≡ length (image_at mem.now) }
{
    let dots = memory::count(mem, CLOCK, DOTS);
    (dots + (count_entries(mem) + (count_waiting(mem) + count_keys(mem)))) * 16
}

fn write_entries(mem: &[u8; READER], kind: u8, out: &mut [u8], at: usize) -> usize
    requires { at + length (flat_from (entry_records kind) 0 (entries_at mem.now)) * 16 ≤ length out.old }
    ensures { Wrote at (bytes_of (flat_from (entry_records kind) 0 (entries_at mem.now))) out.old
        out.new result }
{
    let n = memory::count(mem, ENTRY_COUNT, ENTRIES);
    let mut next = at;
    for j in 0..n {
        let e = entry_at(mem, j);
        next = mapimage::write_entry(out, next, kind, e);
    }
    next
}

fn write_waiting(mem: &[u8; READER], out: &mut [u8], at: usize) -> usize
    requires { at + length (flat_from waiting_dots 0 (waiting_at mem.now)) * 16 ≤ length out.old }
    ensures { Wrote at (bytes_of (flat_from waiting_dots 0 (waiting_at mem.now))) out.old out.new result }
{
    let n = memory::count(mem, WAITING_COUNT, WAITING);
    let mut next = at;
    for k in 0..n {
        let clock = clock_at(mem, REMOVAL_PLACE + k * REMOVAL_ROOM);
        let index = k as u8;
        next = clockimage::write_dots(out, next, WAITING_DOT, index, 0, clock);
    }
    next
}

// Writes the keys of waiting removals, by key and then by index; answers the place behind them.
fn write_waiting_keys(mem: &[u8; READER], out: &mut [u8], at: usize) -> usize
    requires { at + length (waiting_keys (waiting_at mem.now)) * 16 ≤ length out.old }
    ensures { Wrote at (bytes_of (waiting_keys (waiting_at mem.now))) out.old out.new result }
{
    let mut next = at;
    let mut best = least(mem, 0);
    // A `while`: the least key that is left is found anew at each turn.
    while best < NO_KEY {
        let r = Record {
            kind: WAITING_KEY,
            index: (best % 256) as u8,
            actor: 0,
            key: (best / 256) as u32,
            number: 0,
        };
        next = records::write_record(out, next, r);
        best = least(mem, best + 1);
    }
    next
}

// Writes the image of what stands in the memory at the start of `out`; answers its length.
fn write_image(mem: &[u8; READER], out: &mut [u8]) -> usize
    requires { length (image_at mem.now) ≤ length out.old }
    ensures { Wrote 0 (image_at mem.now) out.old out.new result }
{
    let clock = clock_at(mem, CLOCK);
    let first = clockimage::write_dots(out, 0, CLOCK_DOT, 0, 0, clock);
    let second = write_entries(mem, ENTRY_DOT, out, first);
    let third = write_entries(mem, VALUE, out, second);
    let fourth = write_entries(mem, VALUE_DOT, out, third);
    let fifth = write_waiting(mem, out, fourth);
    write_waiting_keys(mem, out, fifth)
}

// The end of the image: 13 after the end, then the number of the whole image, then 10, else the map's image.
pub fn end(mem: &mut [u8; READER], out: &mut [u8]) -> u64
    ensures { Ended mem.old out.old mem.new out.new result }
{
    answers::told(give_held(mem, out))
}

fn give_held(mem: &mut [u8; READER], out: &mut [u8]) -> Result<usize, Refusal>
    ensures { Ended mem.old out.old mem.new out.new (word_in result) }
{
    if mem[OPEN] != 1 {
        return Err(Refusal::Ended);
    }
    if let Err(refusal) = verdict(mem) {
        records::put8(mem, OPEN, 0);
        return Err(refusal);
    }
    if out.len() < image_length(mem) {
        return Err(Refusal::ShortBuffer);
    }
    let n = write_image(mem, out);
    records::put8(mem, OPEN, 0);
    Ok(n)
}
