// The keys of a result's waiting removals, one key after the other, from where they lie in two images.
ghost use Rattle.std.specs.Prelude.{◌≡◌, true, ◌||◌, List, ℕ, ◌+◌, ◌*◌, ◌^◌, ◌≤◌, ◌<◌, ltb, length, get_or};
ghost use Rattle.listlaws.specs.First.{some};
ghost use Rattle.removals.specs.declared.Removal.{Removal};
ghost use Rattle.limits.specs.Limits.{waiting_limit};
ghost use Rattle.removals.specs.Counted.{overlong};
ghost use Rattle.records.specs.Records.{record_from, bytes_of};
ghost use Rattle.records.specs.Writing.{Wrote};
ghost use Rattle.mapimage.specs.MapImage.{key_number, waiting_keys};
ghost use Rattle.queued.specs.Queue.{Keyed};
ghost use Rattle.queued.specs.Planned.{SoundRemovals, Moves};
ghost use Rattle.queued.specs.Rowed.{Carried, RowLies, row_records, one_if_marked, keys_at};

use crate::{KeyTotals, Row};
use limits::{KEYS, WAITING};
use records::{Record, WAITING_KEY};
use walks::BEYOND_KEYS;

// The marks of a list's removals, carried to their new places beside others.
fn carry(under: [bool; WAITING], marks: [bool; WAITING], table: [u8; WAITING]) -> [bool; WAITING]
    ensures { Carried under marks table result }
{
    let mut out = under;
    for k in 0..WAITING {
        if marks[k] {
            let p = table[k] as usize;
            if p < WAITING {
                out[p] = true;
            }
        }
    }
    out
}

// The key of the record at a place, and above every key at the end.
fn head(s: &[u8], at: usize, end: usize) -> u64
    requires { end * 16 ≤ length s.now }
    ensures { (at < end → (result ≡ (record_from s.now (at * 16)).key)
        × ((result < 2 ^ 32) × ((record_from s.now (at * 16)).index < 256))) × (end ≤ at → result ≡ 2 ^ 32) }
{
    if at < end {
        let r = records::read_record(s, at * 16);
        return r.key as u64;
    }
    BEYOND_KEYS
}

// The next key of a result, and which of its removals list it.
fn row(
    s: &[u8],
    i: usize,
    n: usize,
    ours: [u8; WAITING],
    t: &[u8],
    j: usize,
    m: usize,
    theirs: [u8; WAITING],
) -> Row
    requires { ((i ≤ n) × (n * 16 ≤ length s.now)) × (((j ≤ m) × (m * 16 ≤ length t.now)) × (ltb i n || ltb j m ≡ true)) }
    ensures { ((i ≤ result.i) × ((result.i ≤ n) × ((j ≤ result.j) × ((result.j ≤ m) × (i + j < result.i + result.j)))))
        × ((low : ℕ) (w v united : List Removal) → Keyed s.now i n (key_number 0 low) w → Keyed t.now j m (key_number 0 low) v
        → Moves w v united ours theirs
        → RowLies s.now n t.now m low w v united result) }
{
    let a = head(s, i, n);
    let b = head(t, j, m);
    let key = a.min(b) as u32;
    let x = crate::listers(s, i, n, key);
    let y = crate::listers(t, j, m, key);
    let none: [bool; WAITING] = [false; WAITING];
    let mine = x.under;
    let yours = y.under;
    let first = carry(none, mine, ours);
    let under = carry(first, yours, theirs);
    Row {
        key,
        under,
        i: x.next,
        j: y.next,
    }
}

// Writes the records of a key under the places of its marks.
fn write_row(out: &mut [u8], at: usize, key: u32, under: [bool; WAITING]) -> usize
    requires { at + length (row_records key 0 under) * 16 ≤ length out.old }
    ensures { Wrote at (bytes_of (row_records key 0 under)) out.old out.new result }
{
    let mut next = at;
    for (k, listed) in under.iter().enumerate() {
        if *listed {
            let r = Record {
                kind: WAITING_KEY,
                index: k as u8,
                actor: 0,
                key,
                number: 0,
            };
            next = records::write_record(out, next, r);
        }
    }
    next
}

// Writes the keys of a result's waiting removals, by key and then by index; answers the place behind them.
pub fn write_keys(
    out: &mut [u8],
    at: usize,
    s: &[u8],
    from: usize,
    n: usize,
    ours: [u8; WAITING],
    t: &[u8],
    start: usize,
    m: usize,
    theirs: [u8; WAITING],
) -> usize
    requires { (w v result : List Removal) × Keyed s.now from n 0 w × Keyed t.now start m 0 v × Moves w v result ours theirs
        × (length result ≤ waiting_limit) × (at + length (waiting_keys result) * 16 ≤ length out.old) }
    ensures { ((w v united : List Removal) → Keyed s.now from n 0 w → Keyed t.now start m 0 v
        → Moves w v united ours theirs → length united ≤ waiting_limit
        → at + length (waiting_keys united) * 16 ≤ length out.old
        → Wrote at (bytes_of (waiting_keys united)) out.old out.new result) }
{
    let mut next = at;
    let mut i = from;
    let mut j = start;
    // A `while`: each of the two lists is walked at its own pace.
    while (i < n) | (j < m) {
        let r = row(s, i, n, ours, t, j, m, theirs);
        i = r.i;
        j = r.j;
        let under = r.under;
        next = write_row(out, next, r.key, under);
    }
    next
}

// How many marks are set.
fn count_row(under: [bool; WAITING]) -> usize
    ensures { (result ≤ waiting_limit) × ((key : ℕ) → result ≡ length (row_records key 0 under)) }
{
    let mut total: usize = 0;
    for listed in under {
        if listed {
            total += 1;
        }
    }
    total
}

// How many keys each removal of a result has, with those of a row.
fn add_row(counts: [usize; WAITING], under: [bool; WAITING]) -> [usize; WAITING]
    requires { (p : ℕ) → p < waiting_limit → get_or counts p 0 < 2 ^ 62 }
    ensures { (p : ℕ) → p < waiting_limit → get_or result p 0 ≡ get_or counts p 0 + one_if_marked under p }
{
    let mut out = counts;
    for (k, listed) in under.iter().enumerate() {
        if *listed {
            out[k] += 1;
        }
    }
    out
}

// Whether a removal has too many keys.
fn any_long(counts: [usize; WAITING]) -> bool
    ensures { ((united : List Removal) → length united ≤ waiting_limit
        → ((p : ℕ) → p < waiting_limit → get_or counts p 0 ≡ length (keys_at united p)) → result ≡ some overlong united) }
{
    for c in counts {
        if KEYS < c {
            return true;
        }
    }
    false
}

// Whether a waiting removal of a result has too many keys, and how many keys all of them have.
pub fn count_keys(
    s: &[u8],
    from: usize,
    n: usize,
    ours: [u8; WAITING],
    t: &[u8],
    start: usize,
    m: usize,
    theirs: [u8; WAITING],
) -> KeyTotals
    requires { (w v result : List Removal) × Keyed s.now from n 0 w × Keyed t.now start m 0 v × Moves w v result ours theirs
        × (length result ≤ waiting_limit) }
    ensures { ((w v united : List Removal) → Keyed s.now from n 0 w → Keyed t.now start m 0 v
        → Moves w v united ours theirs → length united ≤ waiting_limit → SoundRemovals united
        → (result.over ≡ some overlong united) × (result.total ≡ length (waiting_keys united))) }
{
    let mut total: usize = 0;
    let mut counts: [usize; WAITING] = [0; WAITING];
    let mut i = from;
    let mut j = start;
    // A `while`: each of the two lists is walked at its own pace.
    while (i < n) | (j < m) {
        let r = row(s, i, n, ours, t, j, m, theirs);
        i = r.i;
        j = r.j;
        let under = r.under;
        total += count_row(under);
        let more = add_row(counts, under);
        counts = more;
    }
    let over = any_long(counts);
    KeyTotals { over, total }
}
