// The memory of a reader of pieces, which is lent: where each part of the map stands in it, and where a record goes.
#![tactic(auto)]

ghost use Rattle.std.specs.Prelude.{◌≡◌, ◌+◌, ◌≤◌, ◌<◌};
ghost use Rattle.limits.specs.Limits.{entry_limit, waiting_limit};
ghost use Rattle.memory.specs.Memory.{reader_room, clock_room, count_at, entry_count, scan_at};
ghost use Rattle.memory.specs.Putting.{dot_put, lose, entry_begun, value_put, value_dot_put, entry_place_of, known_put, entry_put, removal_begun};
ghost use Rattle.memory.specs.Putting.{key_put};
ghost use Rattle.memory.specs.Putting.{waiting_put, record_put, scan_put};

use limits::{DOTS, ENTRIES, KEYS, VALUES, WAITING};
use records::{CLOCK_DOT, ENTRY_DOT, Record, VALUE, WAITING_DOT};
use scan::Scan;

// Where the numbers of a reader stand.
pub const OPEN: usize = 0;

pub const LENGTH: usize = OPEN + 1;

pub const HELD: usize = LENGTH + 4;

pub const NUMBER: usize = HELD + 16;

pub const ANY: usize = NUMBER + 1;

pub const LAST: usize = ANY + 1;

pub const COUNTS: usize = LAST + 16;

pub const UNDER: usize = COUNTS + 6;

pub const LOST: usize = UNDER + 256;

pub const ENTRY_COUNT: usize = LOST + 1;

pub const WAITING_COUNT: usize = ENTRY_COUNT + 1;

pub const CLOCK: usize = WAITING_COUNT + 1;

// The bytes of a dot, a clock, a value, an entry, a waiting removal.
pub const DOT_ROOM: usize = 10;

pub const CLOCK_ROOM: usize = 1 + DOTS * DOT_ROOM;

pub const VALUE_ROOM: usize = 8 + CLOCK_ROOM + 2;

pub const ENTRY_ROOM: usize = 4 + CLOCK_ROOM + 1 + VALUES * VALUE_ROOM;

pub const REMOVAL_ROOM: usize = CLOCK_ROOM + 1 + KEYS * 4;

pub const ENTRY_PLACE: usize = CLOCK + CLOCK_ROOM;

pub const REMOVAL_PLACE: usize = ENTRY_PLACE + ENTRIES * ENTRY_ROOM;

// The bytes of a reader.
pub const READER: usize = REMOVAL_PLACE + WAITING * REMOVAL_ROOM;

pub fn wide(x: u8) -> usize
    ensures { result ≡ x }
{
    x as usize
}

// A count of one byte, or the limit where it is more.
pub fn count(mem: &[u8; READER], at: usize, limit: usize) -> usize
    requires { at < reader_room }
    ensures { (result ≡ count_at limit at mem.now) × (result ≤ limit) }
{
    let n = wide(mem[at]);
    if n < limit { n } else { limit }
}

// A dot behind the last of a clock, where there is room.
fn put_dot(mem: &mut [u8; READER], at: usize, r: Record)
    requires { at + clock_room ≤ reader_room }
    ensures { mem.new ≡ dot_put at r mem.old }
{
    let n = mem[at];
    if n < DOTS as u8 {
        let dot = at + 1 + n as usize * DOT_ROOM;
        records::put16(mem, dot, r.actor);
        records::put64(mem, dot + 2, r.number);
        records::put8(mem, at, n + 1);
    }
}

// A record did not find what it needs.
fn lose(mem: &mut [u8; READER])
    ensures { mem.new ≡ lose mem.old }
{
    records::put8(mem, LOST, 1);
}

// An entry with its first dot, at the place behind the last.
fn begin_entry(mem: &mut [u8; READER], j: usize, r: Record)
    requires { j < entry_limit }
    ensures { mem.new ≡ entry_begun j r mem.old }
{
    let at = ENTRY_PLACE + j * ENTRY_ROOM;
    records::put32(mem, at, r.key);
    records::put8(mem, at + 4, 0);
    put_dot(mem, at + 4, r);
    records::put8(mem, at + 4 + CLOCK_ROOM, 0);
    records::put8(mem, ENTRY_COUNT, (j + 1) as u8);
}

// A value of an entry, where it is the next.
fn put_value(mem: &mut [u8; READER], j: usize, r: Record)
    requires { j < entry_limit }
    ensures { mem.new ≡ value_put j r mem.old }
{
    let values = ENTRY_PLACE + j * ENTRY_ROOM + 4 + CLOCK_ROOM;
    let k = mem[values];
    if k == r.index {
        if k < VALUES as u8 {
            let at = values + 1 + wide(k) * VALUE_ROOM;
            records::put64(mem, at, r.number);
            records::put8(mem, at + 8, 0);
            records::put16(mem, at + 8 + CLOCK_ROOM, r.actor);
            records::put8(mem, values, k + 1);
        } else {
            lose(mem);
        }
    } else {
        lose(mem);
    }
}

// A dot of a value, where that is there.
fn put_value_dot(mem: &mut [u8; READER], j: usize, r: Record)
    requires { j < entry_limit }
    ensures { mem.new ≡ value_dot_put j r mem.old }
{
    let values = ENTRY_PLACE + j * ENTRY_ROOM + 4 + CLOCK_ROOM;
    let k = r.index;
    if k < mem[values] {
        if k < VALUES as u8 {
            put_dot(mem, values + 1 + wide(k) * VALUE_ROOM + 8, r);
        } else {
            lose(mem);
        }
    } else {
        lose(mem);
    }
}

// The first entry of a key, or how many there are.
fn find(mem: &[u8; READER], n: usize, key: u32) -> usize
    requires { n ≡ entry_count mem.now }
    ensures { result ≡ entry_place_of mem.now key }
{
    for j in 0..n {
        if records::read32(mem, ENTRY_PLACE + j * ENTRY_ROOM) == key {
            return j;
        }
    }
    n
}

// A record of the entry at a place.
fn put_known(mem: &mut [u8; READER], j: usize, r: Record)
    requires { j < entry_limit }
    ensures { mem.new ≡ known_put j r mem.old }
{
    if r.kind == ENTRY_DOT {
        put_dot(mem, ENTRY_PLACE + j * ENTRY_ROOM + 4, r);
    } else if r.kind == VALUE {
        put_value(mem, j, r);
    } else {
        put_value_dot(mem, j, r);
    }
}

// A record of the entry of its key.
fn put_entry(mem: &mut [u8; READER], r: Record)
    ensures { mem.new ≡ entry_put r mem.old }
{
    let n = count(mem, ENTRY_COUNT, ENTRIES);
    let j = find(mem, n, r.key);
    if j < n {
        put_known(mem, j, r);
    } else if r.kind == ENTRY_DOT {
        if n < ENTRIES {
            begin_entry(mem, n, r);
        } else {
            lose(mem);
        }
    } else {
        lose(mem);
    }
}

// A waiting removal with its first dot, at the place behind the last.
fn begin_removal(mem: &mut [u8; READER], k: usize, r: Record)
    requires { k < waiting_limit }
    ensures { mem.new ≡ removal_begun k r mem.old }
{
    let at = REMOVAL_PLACE + k * REMOVAL_ROOM;
    records::put8(mem, at, 0);
    put_dot(mem, at, r);
    records::put8(mem, at + CLOCK_ROOM, 0);
    records::put8(mem, WAITING_COUNT, (k + 1) as u8);
}

// A key of a waiting removal, where there is room.
fn put_key(mem: &mut [u8; READER], k: usize, r: Record)
    requires { k < waiting_limit }
    ensures { mem.new ≡ key_put k r mem.old }
{
    let keys = REMOVAL_PLACE + k * REMOVAL_ROOM + CLOCK_ROOM;
    let n = mem[keys];
    if n < KEYS as u8 {
        records::put32(mem, keys + 1 + wide(n) * 4, r.key);
        records::put8(mem, keys, n + 1);
    }
}

// A record of the waiting removal at an index.
fn put_waiting(mem: &mut [u8; READER], k: usize, r: Record)
    ensures { mem.new ≡ waiting_put k r mem.old }
{
    let n = count(mem, WAITING_COUNT, WAITING);
    if k < n {
        if r.kind == WAITING_DOT {
            put_dot(mem, REMOVAL_PLACE + k * REMOVAL_ROOM, r);
        } else {
            put_key(mem, k, r);
        }
    } else if r.kind == WAITING_DOT {
        if k == n {
            if k < WAITING {
                begin_removal(mem, k, r);
            } else {
                lose(mem);
            }
        } else {
            lose(mem);
        }
    } else {
        lose(mem);
    }
}

// A record where it belongs.
pub fn put_record(mem: &mut [u8; READER], r: Record)
    ensures { mem.new ≡ record_put r mem.old }
{
    if r.kind == CLOCK_DOT {
        put_dot(mem, CLOCK, r);
    } else if r.kind < WAITING_DOT {
        put_entry(mem, r);
    } else {
        put_waiting(mem, wide(r.index), r);
    }
}

// What stands in the memory as a scan.
pub fn scan_of(mem: &[u8; READER]) -> Scan
    ensures { result ≡ scan_at mem.now }
{
    let last = records::read_record(mem, LAST);
    let outer = records::read16(mem, COUNTS);
    let middle = records::read16(mem, COUNTS + 2);
    let inner = records::read16(mem, COUNTS + 4);
    Scan {
        number: mem[NUMBER],
        any: mem[ANY] == 1,
        last,
        outer: outer as usize,
        middle: middle as usize,
        inner: inner as usize,
    }
}

pub fn put_scan(mem: &mut [u8; READER], s: Scan)
    ensures { mem.new ≡ scan_put s mem.old }
{
    records::put8(mem, NUMBER, s.number);
    records::put8(mem, ANY, records::flag(s.any));
    let last = s.last;
    records::write_record(mem, LAST, last);
    records::put16(mem, COUNTS, (s.outer % 65536) as u16);
    records::put16(mem, COUNTS + 2, (s.middle % 65536) as u16);
    records::put16(mem, COUNTS + 4, (s.inner % 65536) as u16);
}
