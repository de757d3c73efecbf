// The waiting removals of an image where they lie: their clocks, and what those that list a key leave of a clock.
#![tactic(auto)]

ghost use Rattle.std.specs.Prelude.{◌≡◌, List, [], ℕ, ◌+◌, ◌*◌, ◌≤◌, ◌<◌, length, get_or};
ghost use Rattle.clock.specs.declared.Dot.{Dot};
ghost use Rattle.limits.specs.Limits.{dot_limit, waiting_limit};
ghost use Rattle.clock.specs.Dots.{clock_of};
ghost use Rattle.clock.specs.Lawful.{Lawful};
ghost use Rattle.runs.specs.Run.{run_dots};
ghost use Rattle.marks.specs.Marks.{picked};
ghost use Rattle.removals.specs.declared.Removal.{Removal};
ghost use Rattle.map.specs.Model.{waiting_in};
ghost use Rattle.records.specs.Records.{record_from};
ghost use Rattle.mapimage.specs.MapImage.{key_number};
ghost use Rattle.maprecords.specs.Related.{read_map};
ghost use Rattle.walks.specs.Walk.{between};
ghost use Rattle.layout.specs.Whole.{Lies};
ghost use Rattle.queued.specs.Queue.{Queued, cuts_for, Marked, Keyed};

pub mod rows;

use clock::Clock;
use limits::{DOTS, WAITING};
use walks::{BY_INDEX, Layout};

// Where a queue's runs begin, and where the last ends.
pub const QUEUE_STARTS: usize = WAITING + 1;

// Where the dots of an image's waiting removals begin: numbers of records.
#[derive(Clone, Copy)]
pub struct Queue {
    pub starts: [usize; QUEUE_STARTS],
    pub len: usize,
}

// Which waiting removals list a key, and where the records of higher keys begin.
#[derive(Clone, Copy)]
pub struct Listing {
    pub under: [bool; WAITING],
    pub next: usize,
}

// A key of a result's waiting removals, which of them list it, and where the records of higher keys begin in two images.
#[derive(Clone, Copy)]
pub struct Row {
    pub key: u32,
    pub under: [bool; WAITING],
    pub i: usize,
    pub j: usize,
}

// Whether a removal has too many keys, and how many keys all removals have.
#[derive(Clone, Copy)]
pub struct KeyTotals {
    pub over: bool,
    pub total: usize,
}

impl Queue {
    // Where no removals lie.
    pub fn none() -> Queue
        ensures { (s : List ℕ) → Queued s result [] }
    {
        Queue {
            starts: [0; QUEUE_STARTS],
            len: 0,
        }
    }
}

// Where the dots of an image's n waiting removals lie.
pub fn queue_of(s: &[u8], l: Layout, n: usize) -> Queue
    requires { Lies s.now (read_map s.now).map l × (n ≡ length (waiting_in (read_map s.now).map)) }
    ensures { Queued s.now result (waiting_in (read_map s.now).map) }
{
    let end = l.sixth;
    let mut at = l.fifth;
    let mut starts: [usize; QUEUE_STARTS] = [at; QUEUE_STARTS];
    for i in 0..n {
        at = walks::first_from(s, BY_INDEX, i as u64 + 1, at, end);
        starts[i + 1] = at;
    }
    Queue { starts, len: n }
}

// The dots of a waiting removal where they lie.
fn run_at(s: &[u8], q: Queue, k: usize) -> &[u8]
    requires { (w : List Removal) × Queued s.now q w × (k < length w) }
    ensures { result.now ≡ between s.now (get_or q.starts k 0) (get_or q.starts (k + 1) 0) }
{
    &s[q.starts[k] * 16..q.starts[k + 1] * 16]
}

// Which waiting removals list a key; keys below it are passed.
pub fn listers(s: &[u8], at: usize, end: usize, key: u32) -> Listing
    requires { (at ≤ end) × (end * 16 ≤ length s.now) }
    ensures { ((at ≤ result.next) × ((result.next ≤ end) × (at < end → (record_from s.now (at * 16)).key ≤ key → at < result.next)))
        × ((low : ℕ) (w : List Removal) → Keyed s.now at end low w → low ≤ key_number 0 key
        → Marked w key result.under × Keyed s.now result.next end (key_number 0 (key + 1)) w) }
{
    let mut under: [bool; WAITING] = [false; WAITING];
    for i in at..end {
        let r = records::read_record(s, i * 16);
        if key < r.key {
            return Listing { under, next: i };
        }
        if r.key == key {
            let k = r.index as usize;
            if k < WAITING {
                under[k] = true;
            }
        }
    }
    Listing { under, next: end }
}

// How many of n can be in use.
pub fn places(n: usize) -> usize
    ensures { ((result ≤ waiting_limit) × (result ≤ n)) × (n ≤ waiting_limit → result ≡ n) }
{
    n.min(WAITING)
}

// A clock without what the removals that list a key have seen.
pub fn cut_listed(s: &[u8], q: Queue, under: [bool; WAITING], clock: Clock) -> Clock
    requires { (w : List Removal) × Queued s.now q w }
    ensures { (w : List Removal) (key : ℕ) (d : List Dot) → Queued s.now q w → Marked w key under → clock ≡ clock_of d
        → result ≡ clock_of (cuts_for w key d) }
{
    let mut out = clock;
    for k in 0..places(q.len) {
        if under[k] {
            let by = runs::clock_of(run_at(s, q, k));
            out = out.cut(by).clock;
        }
    }
    out
}

// The marks of a run without what the removals that list a key have seen.
pub fn cut_listed_marks(
    s: &[u8],
    q: Queue,
    under: [bool; WAITING],
    run: &[u8],
    marks: [bool; DOTS],
) -> [bool; DOTS]
    requires { ((w : List Removal) × Queued s.now q w) × ((length run.now ≤ dot_limit * 16) × Lawful (run_dots run.now)) }
    ensures { (w : List Removal) (key : ℕ) → Queued s.now q w → Marked w key under
        → picked result (run_dots run.now) ≡ cuts_for w key (picked marks (run_dots run.now)) }
{
    let mut out = marks;
    for k in 0..places(q.len) {
        if under[k] {
            let left = marks::cut_marks_by(run, out, run_at(s, q, k));
            out = left;
        }
    }
    out
}
