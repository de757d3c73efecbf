// Records of 16 bytes in a lent slice, and the twelve kinds of record.
#![tactic(auto)]

ghost use Rattle.std.specs.Prelude.{◌≡◌, ◌+◌, ◌*◌, ◌≤◌, ◌<◌, length};
ghost use Rattle.records.specs.Bytes.{num_at, num_bytes, placed, flag_of};
ghost use Rattle.records.specs.Records.{record_from, record_bytes};
ghost use Rattle.records.specs.Writing.{Wrote};
ghost use Rattle.records.specs.Kinds.{mask_of, field_ok, fields_ok, counter_ok, record_ok, actor_of, before};

#[derive(Clone, Copy)]
pub struct Record {
    pub kind: u8,
    pub index: u8,
    pub actor: u16,
    pub key: u32,
    pub number: u64,
}

// The kinds of records: a map has the first six, a clock the first alone, an operation the last six.
pub const CLOCK_DOT: u8 = 1;

pub const ENTRY_DOT: u8 = 2;

pub const VALUE: u8 = 3;

pub const VALUE_DOT: u8 = 4;

pub const WAITING_DOT: u8 = 5;

pub const WAITING_KEY: u8 = 6;

pub const REMOVAL: u8 = 7;

pub const REMOVAL_DOT: u8 = 8;

pub const REMOVAL_KEY: u8 = 9;

pub const UPDATE: u8 = 10;

pub const PUT_VALUE: u8 = 11;

pub const PUT_DOT: u8 = 12;

// By kind, from kind 0, which is none: bits 1 index, 2 actor, 4 key, 8 number.
const MASKS: [u8; 13] = [0, 10, 14, 15, 15, 11, 5, 0, 10, 4, 14, 10, 10];

pub fn read16(s: &[u8], at: usize) -> u16
    requires { at + 2 ≤ length s.now }
    ensures { result ≡ num_at 1 at s.now }
{
    u16::from(s[at]) + 256 * u16::from(s[at + 1])
}

pub fn read32(s: &[u8], at: usize) -> u32
    requires { at + 4 ≤ length s.now }
    ensures { result ≡ num_at 2 at s.now }
{
    let low = read16(s, at);
    let high = read16(s, at + 2);
    u32::from(low) + 65536 * u32::from(high)
}

pub fn read64(s: &[u8], at: usize) -> u64
    requires { at + 8 ≤ length s.now }
    ensures { result ≡ num_at 3 at s.now }
{
    let low = read32(s, at);
    let high = read32(s, at + 4);
    u64::from(low) + 0x1_0000_0000 * u64::from(high)
}

pub fn read_record(s: &[u8], at: usize) -> Record
    requires { at + 16 ≤ length s.now }
    ensures { result ≡ record_from s.now at }
{
    Record {
        kind: s[at],
        index: s[at + 1],
        actor: read16(s, at + 2),
        key: read32(s, at + 4),
        number: read64(s, at + 8),
    }
}

pub fn put8(out: &mut [u8], at: usize, x: u8)
    requires { at + 1 ≤ length out.old }
    ensures { out.new ≡ placed at (num_bytes 0 x) out.old }
{
    out[at] = x;
}

pub fn put16(out: &mut [u8], at: usize, x: u16)
    requires { at + 2 ≤ length out.old }
    ensures { out.new ≡ placed at (num_bytes 1 x) out.old }
{
    put8(out, at, (x % 256) as u8);
    put8(out, at + 1, (x / 256) as u8);
}

pub fn put32(out: &mut [u8], at: usize, x: u32)
    requires { at + 4 ≤ length out.old }
    ensures { out.new ≡ placed at (num_bytes 2 x) out.old }
{
    put16(out, at, (x % 65536) as u16);
    put16(out, at + 2, (x / 65536) as u16);
}

pub fn put64(out: &mut [u8], at: usize, x: u64)
    requires { at + 8 ≤ length out.old }
    ensures { out.new ≡ placed at (num_bytes 3 x) out.old }
{
    put32(out, at, (x % 0x1_0000_0000) as u32);
    put32(out, at + 4, (x / 0x1_0000_0000) as u32);
}

// Writes a record at `at`, and answers the place behind it.
pub fn write_record(out: &mut [u8], at: usize, r: Record) -> usize
    requires { at + 16 ≤ length out.old }
    ensures { Wrote at (record_bytes r) out.old out.new result }
{
    put8(out, at, r.kind);
    put8(out, at + 1, r.index);
    put16(out, at + 2, r.actor);
    put32(out, at + 4, r.key);
    put64(out, at + 8, r.number);
    at + 16
}

fn mask_of(kind: u8) -> u8
    ensures { result ≡ mask_of kind }
{
    MASKS.get(kind as usize).map_or(0, |m| *m)
}

fn field_ok(mask: u8, bit: u8, x: u64) -> bool
    ensures { result ≡ field_ok mask bit x }
{
    (mask & bit != 0) | (x == 0)
}

fn fields_ok(mask: u8, r: Record) -> bool
    ensures { result ≡ fields_ok mask r }
{
    field_ok(mask, 1, r.index as u64)
        & (field_ok(mask, 2, r.actor as u64)
            & (field_ok(mask, 4, r.key as u64) & field_ok(mask, 8, r.number)))
}

fn counter_ok(mask: u8, r: Record) -> bool
    ensures { result ≡ counter_ok mask r }
{
    (mask & 8 == 0) | ((r.kind == VALUE) | ((r.kind == PUT_VALUE) | (0 < r.number)))
}

// Whether a record is good by itself in an image of the kinds `low` to `high`.
pub fn record_ok(low: u8, high: u8, r: Record) -> bool
    ensures { result ≡ record_ok low high r }
{
    let mask = mask_of(r.kind);
    (low <= r.kind) & ((r.kind <= high) & (fields_ok(mask, r) & counter_ok(mask, r)))
}

// The actor that a record is ordered by: none for a value, whose field holds an origin.
fn actor_of(r: Record) -> u16
    ensures { result ≡ actor_of r }
{
    if (r.kind == VALUE) | (r.kind == PUT_VALUE) {
        0
    } else {
        r.actor
    }
}

// Whether the record `a` stands before `b` in an image.
pub fn before(a: Record, b: Record) -> bool
    ensures { result ≡ before a b }
{
    (a.kind, a.key, a.index, actor_of(a)) < (b.kind, b.key, b.index, actor_of(b))
}

// A flag as a byte.
pub fn flag(b: bool) -> u8
    ensures { result ≡ flag_of b }
{
    u8::from(b)
}
