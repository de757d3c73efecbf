// Steps 2 to 4 of a salvage: a mark for each record of a damaged image, which says whether it stays, or the step at which it goes.
#![tactic(auto)]

ghost use Rattle.std.specs.Prelude.{◌≡◌, not, cond, ◌||◌, true, false, ◌*◌, ◌/◌, ◌≤◌, length, take};
ghost use Rattle.listlaws.specs.First.{some};
ghost use Rattle.records.specs.Kinds.{record_ok, before};
ghost use Rattle.records.specs.Records.{records_of};
ghost use Rattle.salvagerules.specs.Needs.{need_met};
ghost use Rattle.culling.specs.Marks.{is_left, left_items, marked_of, Says, after_two, after_three, after_four};
ghost use Rattle.culling.specs.Looking.{is_wanted, want_index, want_key, want_both, want_dot};

use records::{CLOCK_DOT, ENTRY_DOT, Record, VALUE, VALUE_DOT, WAITING_DOT, WAITING_KEY};
use scan::Scan;

// A mark: 0 for a record that stays as it is, 2 to 5 for one that goes at that step, this and its new index for one that takes another index.
pub const CHANGED: u16 = 8;

// A record that is looked for: of a kind, and under a key, under an index, or of an actor with this counter or more, where these are asked for.
#[derive(Clone, Copy)]
pub struct Wanted {
    pub kind: u8,
    pub keyed: bool,
    pub key: u32,
    pub indexed: bool,
    pub index: u8,
    pub dotted: bool,
    pub actor: u16,
    pub number: u64,
}

// Whether a mark says that its record is left: it stays, or goes at the step `from` or later, where that is not 0.
pub fn is_left(from: u16, mark: u16) -> bool
    ensures { result ≡ is_left from mark }
{
    (mark == 0) | ((0 < from) & (from <= mark))
}

// Step 2: records bad by themselves go.
pub fn mark_bad(image: &[u8], marks: &mut [u16])
    requires { length image.now / 16 ≤ length marks.old }
    ensures { Says marks.new image.now (after_two (records_of image.now)) }
{
    let n = image.len() / 16;
    for i in 0..n {
        let r = records::read_record(image, i * 16);
        marks[i] = if records::record_ok(CLOCK_DOT, WAITING_KEY, r) {
            0
        } else {
            2
        };
    }
}

// Step 3: records that are not above the last one kept go.
pub fn mark_order(image: &[u8], marks: &mut [u16])
    requires { (length image.now / 16 ≤ length marks.old) × Says marks.old image.now (after_two (records_of image.now)) }
    ensures { Says marks.new image.now (after_three (records_of image.now)) }
{
    let n = image.len() / 16;
    let mut last: Option<Record> = None;
    for i in 0..n {
        if marks[i] == 0 {
            let r = records::read_record(image, i * 16);
            let above = match last {
                Some(l) => records::before(l, r),
                None => true,
            };
            if above {
                last = Some(r);
            } else {
                marks[i] = 3;
            }
        }
    }
}

pub fn is_wanted(w: Wanted, r: Record) -> bool
    ensures { result ≡ is_wanted w r }
{
    (r.kind == w.kind)
        & ((!w.keyed | (r.key == w.key))
            & ((!w.indexed | (r.index == w.index))
                & (!w.dotted | ((r.actor == w.actor) & (w.number <= r.number)))))
}

// Any record of a kind.
fn of_kind(kind: u8) -> Wanted
    ensures { result ≡ record { kind = kind; keyed = false; key = 0; indexed = false; index = 0; dotted = false; actor = 0; number = 0 } }
{
    Wanted {
        kind,
        keyed: false,
        key: 0,
        indexed: false,
        index: 0,
        dotted: false,
        actor: 0,
        number: 0,
    }
}

pub fn of_index(kind: u8, index: u8) -> Wanted
    ensures { result ≡ want_index kind index }
{
    Wanted {
        indexed: true,
        index,
        ..of_kind(kind)
    }
}

fn of_key(kind: u8, key: u32) -> Wanted
    ensures { result ≡ want_key kind key }
{
    Wanted {
        keyed: true,
        key,
        ..of_kind(kind)
    }
}

fn of_both(kind: u8, key: u32, index: u8) -> Wanted
    ensures { result ≡ want_both kind key index }
{
    Wanted {
        keyed: true,
        key,
        ..of_index(kind, index)
    }
}

fn of_dot(kind: u8, actor: u16, number: u64) -> Wanted
    ensures { result ≡ want_dot kind actor number }
{
    Wanted {
        dotted: true,
        actor,
        number,
        ..of_kind(kind)
    }
}

// Whether one of the first n records is left and wanted.
pub fn has_left(image: &[u8], marks: &[u16], n: usize, from: u16, w: Wanted) -> bool
    requires { (n ≤ length image.now / 16) × (length image.now / 16 ≤ length marks.now) }
    ensures { result ≡ some (is_wanted w) (left_items from (take n (marked_of marks.now image.now))) }
{
    for i in 0..n {
        if is_left(from, marks[i]) && is_wanted(w, records::read_record(image, i * 16)) {
            return true;
        }
    }
    false
}

// Whether what the record at place i needs is kept before it, and for a value whether step 3 left a dot of its own.
fn needs_met(image: &[u8], marks: &[u16], i: usize, r: Record) -> bool
    requires { (i ≤ length image.now / 16) × (length image.now / 16 ≤ length marks.now) }
    ensures { result ≡ need_met (left_items 4 (marked_of marks.now image.now))
        (left_items 0 (take i (marked_of marks.now image.now))) r }
{
    if r.kind == ENTRY_DOT {
        return has_left(image, marks, i, 0, of_dot(CLOCK_DOT, r.actor, r.number));
    }
    if r.kind == VALUE {
        let n = image.len() / 16;
        let entered = has_left(image, marks, i, 0, of_key(ENTRY_DOT, r.key));
        let dotted = has_left(image, marks, n, 4, of_both(VALUE_DOT, r.key, r.index));
        return entered & dotted;
    }
    if r.kind == VALUE_DOT {
        return has_left(image, marks, i, 0, of_both(VALUE, r.key, r.index));
    }
    if r.kind == WAITING_KEY {
        return has_left(image, marks, i, 0, of_index(WAITING_DOT, r.index));
    }
    true
}

// Step 4: a record stays if what it needs stays and its limit is not yet full.
pub fn mark_needs(image: &[u8], marks: &mut [u16])
    requires { (length image.now / 16 ≤ length marks.old) × Says marks.old image.now (after_three (records_of image.now)) }
    ensures { Says marks.new image.now (after_four (records_of image.now)) }
{
    let n = image.len() / 16;
    let mut scan = Scan::new();
    let mut under = [0u8; 256];
    for i in 0..n {
        if marks[i] == 0 {
            let r = records::read_record(image, i * 16);
            let x = r.index as usize;
            let u = under[x];
            let more = scan.take(CLOCK_DOT, WAITING_KEY, r, u);
            let met = needs_met(image, marks, i, r);
            if met & (more.number == 0) {
                scan = more;
                under[x] = scan::under(u, r.kind);
            } else {
                marks[i] = 4;
            }
        }
    }
}
