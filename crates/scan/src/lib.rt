// What the records of an image show one after the other, before any is given a meaning: bad order (1), an excess (2).
#![tactic(auto)]

ghost use Rattle.std.specs.Prelude.{◌≡◌, List, [], ◌∷◌, ◌++◌, cond, eqb, min, ℕ};
ghost use Rattle.records.specs.declared.Record.{Record};
ghost use Rattle.records.specs.Kinds.{waiting_key_kind};
ghost use Rattle.refusals.specs.Numbers.{number_told};
ghost use Rattle.scan.specs.Limits.{limit_at, within_limits};
ghost use Rattle.scan.specs.Stepping.{tally_to, by_key, by_index, limits_judged, counted_on, behind_last, scan_on, under_on};
ghost use Rattle.scan.specs.Scanned.{Scanned, CountsUnder};

use limits::{DOTS, ENTRIES, KEYS, VALUES, WAITING};
use records::{Record, WAITING_KEY};
use refusals::Refusal;

// By kind, from kind 0, which is none: the most distinct things of each level.
const OUTER: [u8; 13] = [
    0,
    1,
    ENTRIES as u8,
    ENTRIES as u8,
    ENTRIES as u8,
    1,
    WAITING as u8,
    1,
    1,
    KEYS as u8,
    255,
    1,
    1,
];

const MIDDLE: [u8; 13] = [
    0,
    1,
    1,
    VALUES as u8,
    VALUES as u8,
    WAITING as u8,
    KEYS as u8,
    1,
    1,
    1,
    255,
    1,
    1,
];

const INNER: [u8; 13] = [
    0, DOTS as u8, DOTS as u8, 1, DOTS as u8, DOTS as u8, 1, 1, DOTS as u8, 1, 255, 1, DOTS as u8,
];

#[derive(Clone, Copy)]
pub struct Scan {
    pub number: u8,
    pub any: bool,
    pub last: Record,
    pub outer: usize,
    pub middle: usize,
    pub inner: usize,
}

// A count after one more record: of another group, of the same group and thing, or of the same group and another thing. It stops at 256.
fn tally(n: usize, group: bool, same: bool) -> usize
    ensures { result ≡ tally_to n group same }
{
    if !group {
        return 1;
    }
    if same {
        return n;
    }
    if n < 256 { n + 1 } else { n }
}

fn limit(limits: &[u8; 13], kind: u8) -> usize
    ensures { result ≡ limit_at limits.now kind }
{
    limits.get(kind as usize).map_or(0, |n| *n as usize)
}

fn within(kind: u8, outer: usize, middle: usize, inner: usize) -> bool
    ensures { result ≡ within_limits kind outer middle inner }
{
    (outer <= limit(&OUTER, kind))
        & ((middle <= limit(&MIDDLE, kind)) & (inner <= limit(&INNER, kind)))
}

impl Scan {
    pub fn new() -> Scan
        ensures { (low high : ℕ) → Scanned low high [] result }
    {
        let none = Record {
            kind: 0,
            index: 0,
            actor: 0,
            key: 0,
            number: 0,
        };
        Scan {
            number: 0,
            any: false,
            last: none,
            outer: 0,
            middle: 0,
            inner: 0,
        }
    }

    // Whether a record is good by itself and stands behind the last.
    fn follows(self, low: u8, high: u8, r: Record) -> bool
        ensures { result ≡ behind_last low high self r }
    {
        records::record_ok(low, high, r) & (!self.any | records::before(self.last, r))
    }

    // The counts with a record that is no waiting key.
    fn by_key(self, r: Record) -> Scan
        ensures { result ≡ by_key self r }
    {
        let last = self.last;
        let kind = self.any & (last.kind == r.kind);
        let key = kind & (last.key == r.key);
        let index = key & (last.index == r.index);
        Scan {
            outer: tally(self.outer, kind, key),
            middle: tally(self.middle, key, index),
            inner: tally(self.inner, index, false),
            ..self
        }
    }

    // The counts with a waiting key, whose index has n.
    fn by_index(self, r: Record, n: u8) -> Scan
        ensures { result ≡ by_index self r n }
    {
        let last = self.last;
        let kind = self.any & (last.kind == r.kind);
        Scan {
            outer: tally(self.outer, kind, 0 < n),
            middle: n as usize + 1,
            inner: 1,
            ..self
        }
    }

    // The counts with a record.
    fn tallied(self, r: Record, n: u8) -> Scan
        ensures { result ≡ cond (eqb r.kind waiting_key_kind) (by_index self r n) (by_key self r) }
    {
        if r.kind == WAITING_KEY {
            self.by_index(r, n)
        } else {
            self.by_key(r)
        }
    }

    // The counts held against the limits of a record's kind; the record becomes the last.
    fn judged(self, r: Record) -> Scan
        ensures { result ≡ limits_judged self r }
    {
        let next = Scan {
            any: true,
            last: r,
            ..self
        };
        if within(r.kind, self.outer, self.middle, self.inner) {
            return next;
        }
        Scan { number: 2, ..next }
    }

    // The scan with a record that follows the last.
    fn counted(self, r: Record, n: u8) -> Scan
        ensures { result ≡ counted_on self r n }
    {
        if self.number == 0 {
            return self.tallied(r, n).judged(r);
        }
        Scan {
            any: true,
            last: r,
            ..self
        }
    }

    // One record more; where it is a waiting key, n stand under its index so far: they are not side by side, and whoever reads them counts them.
    pub fn next(self, low: u8, high: u8, r: Record, n: u8) -> Scan
        ensures { result ≡ scan_on low high self r n }
    {
        if self.number == 1 {
            return self;
        }
        if self.follows(low, high, r) {
            return self.counted(r, n);
        }
        Scan { number: 1, ..self }
    }
    // The same, said of every list of records that the scan may have taken before.
    pub fn take(self, low: u8, high: u8, r: Record, n: u8) -> Scan
        ensures { (l : List Record) → Scanned low high l self → (self.number ≡ 0 → CountsUnder low high l r n)
            → Scanned low high (l ++ (r ∷ [])) result }
    {
        self.next(low, high, r, n)
    }
}

// What the number of records one by one stands for.
pub fn verdict(number: u8) -> Result<(), Refusal>
    ensures { number_told result ≡ min number 2 }
{
    match number {
        0 => Ok(()),
        1 => Err(Refusal::Malformed),
        _ => Err(Refusal::OverLimit),
    }
}

// The waiting keys under an index, with a record of a kind.
pub fn under(n: u8, kind: u8) -> u8
    ensures { result ≡ under_on n kind }
{
    if kind == WAITING_KEY {
        n.saturating_add(1)
    } else {
        n
    }
}
