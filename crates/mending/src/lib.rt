// Step 5 of a salvage: waiting clocks united, and the index that each record takes.
#![tactic(auto)]

ghost use Rattle.std.specs.Prelude.{◌≡◌, not, ◌&&◌, ℕ, ◌/◌, ◌≤◌, ◌<◌, eqb, ltb, length, take, get_or};
ghost use Rattle.listlaws.specs.Order.{◌∈◌};
ghost use Rattle.listlaws.specs.Sift.{those};
ghost use Rattle.records.specs.Kinds.{value_kind};
ghost use Rattle.records.specs.Records.{records_of};
ghost use Rattle.removals.specs.Waits.{clock_before};
ghost use Rattle.scan.specs.Numbers.{scan_number};
ghost use Rattle.mapimage.specs.MapImage.{map_longest};
ghost use Rattle.maprecords.specs.Reading.{under_key};
ghost use Rattle.salvagerules.specs.Fates.{staying};
ghost use Rattle.salvagerules.specs.Indexes.{waiting_clock, waiting_indexes, waiting_index, same_dots, lists_already, key_room, kept_by_five};
ghost use Rattle.salvagerules.specs.Indexes.{new_index};
ghost use Rattle.salvagerules.specs.Steps.{fates_of};
ghost use Rattle.salvagelaws.proofs.Fourth.{Supplied};
ghost use Rattle.culling.specs.Marks.{marked_of, left_items, Says, after_four};
ghost use Rattle.mending.specs.Tables.{fourth_of, DotPlace, Led, LeadsOf, RanksOf};
ghost use Rattle.mending.specs.Fated.{united_fates, Tells};

use culling::CHANGED;
use limits::KEYS;
use records::{Record, VALUE, VALUE_DOT, WAITING_DOT, WAITING_KEY};

// As many indexes as a byte can say, and the lead of an index that has no clock.
const INDEXES: usize = 256;

// The place from `from` on of the first dot that stays of a waiting index; the number of records where there is none.
fn dot_from(image: &[u8], marks: &[u16], index: u8, from: usize) -> usize
    requires { (from ≤ length image.now / 16) × (length image.now / 16 ≤ length marks.now) }
    ensures { DotPlace marks.now image.now index from result }
{
    let n = image.len() / 16;
    let w = culling::of_index(WAITING_DOT, index);
    for i in from..n {
        if culling::is_left(5, marks[i])
            && culling::is_wanted(w, records::read_record(image, i * 16))
        {
            return i;
        }
    }
    n
}

// Whether the clock of a waiting index stands before that of another: dots pair by pair, a prefix first.
fn waits_before(image: &[u8], marks: &[u16], a: u8, b: u8) -> bool
    requires { length image.now / 16 ≤ length marks.now }
    ensures { result ≡ clock_before (waiting_clock (fourth_of marks.now image.now) a) (waiting_clock (fourth_of marks.now image.now) b) }
{
    let n = image.len() / 16;
    let mut i = dot_from(image, marks, a, 0);
    let mut j = dot_from(image, marks, b, 0);
    // A `while`: each of the two clocks is walked at its own pace.
    while i < n && j < n {
        let x = records::read_record(image, i * 16);
        let y = records::read_record(image, j * 16);
        if x.actor != y.actor {
            return x.actor < y.actor;
        }
        if x.number != y.number {
            return x.number < y.number;
        }
        i = dot_from(image, marks, a, i + 1);
        j = dot_from(image, marks, b, j + 1);
    }
    j < n
}

// Whether two waiting indexes have one clock.
fn waits_same(image: &[u8], marks: &[u16], a: u8, b: u8) -> bool
    requires { length image.now / 16 ≤ length marks.now }
    ensures { result ≡ same_dots (waiting_clock (fourth_of marks.now image.now) a) (waiting_clock (fourth_of marks.now image.now) b) }
{
    !waits_before(image, marks, a, b) & !waits_before(image, marks, b, a)
}

// Whether an index leads: it is its own lead.
fn is_lead(leads: &[u16], i: usize) -> bool
    requires { i < length leads.now }
    ensures { result ≡ eqb (get_or leads.now i 0) i }
{
    leads[i] as usize == i
}

// The lowest index with the clock of this one, by the leads of those below it.
fn lead_of(image: &[u8], marks: &[u16], leads: &[u16], index: u8) -> u16
    requires { (length image.now / 16 ≤ length marks.now) × (length leads.now ≡ 256) × (scan_number 1 6 (fourth_of marks.now
        image.now) ≡ 0)
        × ((w : ℕ) → w < index → Led (fourth_of marks.now image.now) w (get_or leads.now w 0)) }
    ensures { Led (fourth_of marks.now image.now) index result }
{
    if !culling::has_left(
        image,
        marks,
        image.len() / 16,
        5,
        culling::of_index(WAITING_DOT, index),
    ) {
        return INDEXES as u16;
    }
    for i in 0..index {
        if is_lead(leads, i as usize) && waits_same(image, marks, i, index) {
            return i as u16;
        }
    }
    index as u16
}

// The leads of all indexes.
fn find_leads(image: &[u8], marks: &[u16], leads: &mut [u16])
    requires { (length image.now / 16 ≤ length marks.now) × (length leads.old ≡ 256) × (scan_number 1 6 (fourth_of marks.now
        image.now) ≡ 0) }
    ensures { LeadsOf (fourth_of marks.now image.now) leads.new }
{
    for i in 0..INDEXES {
        leads[i] = lead_of(image, marks, leads, i as u8);
    }
}

// How many leading indexes have a clock before that of an index.
fn rank_of(image: &[u8], marks: &[u16], leads: &[u16], index: u8) -> u16
    requires { (length image.now / 16 ≤ length marks.now) × (scan_number 1 6 (fourth_of marks.now image.now) ≡ 0) × LeadsOf (fourth_of
        marks.now image.now) leads.now }
    ensures { result ≡ waiting_index (fourth_of marks.now image.now) index }
{
    let mut count: u16 = 0;
    for i in 0..INDEXES {
        if is_lead(leads, i) && waits_before(image, marks, i as u8, index) {
            count += 1;
        }
    }
    count
}

// The ranks of all indexes that have a clock.
fn find_ranks(image: &[u8], marks: &[u16], leads: &[u16], ranks: &mut [u16])
    requires { (length image.now / 16 ≤ length marks.now) × (scan_number 1 6 (fourth_of marks.now image.now) ≡ 0) × LeadsOf (fourth_of
        marks.now image.now) leads.now × (length ranks.old ≡ 256) }
    ensures { RanksOf (fourth_of marks.now image.now) ranks.new }
{
    for i in 0..INDEXES {
        if leads[i] < INDEXES as u16 {
            ranks[i] = rank_of(image, marks, leads, i as u8);
        }
    }
}

// Whether a key can join those of its united clock that stay among the first n records: it is not there yet, and the clock has room.
fn has_room(image: &[u8], marks: &[u16], leads: &[u16], n: usize, r: Record) -> bool
    requires { (n ≤ length image.now / 16) × (length image.now / 16 ≤ length marks.now) × Supplied (fourth_of marks.now image.now)
        × LeadsOf (fourth_of marks.now image.now) leads.now
        × (r.index ∈ waiting_indexes (fourth_of marks.now image.now)) }
    ensures { result ≡ not (lists_already (fourth_of marks.now image.now) (left_items 0 (take n (marked_of marks.now image.now))) r)
        && key_room (fourth_of marks.now image.now) (left_items 0 (take n (marked_of marks.now image.now))) r }
{
    let lead = leads[r.index as usize];
    let mut count: usize = 0;
    for i in 0..n {
        if culling::is_left(0, marks[i]) {
            let s = records::read_record(image, i * 16);
            if (s.kind == WAITING_KEY) & (leads[s.index as usize] == lead) {
                if s.key == r.key {
                    return false;
                }
                count += 1;
            }
        }
    }
    count < KEYS
}

// Whether the record at place i stays in step 5.
fn is_united(image: &[u8], marks: &[u16], leads: &[u16], i: usize, r: Record) -> bool
    requires { (i ≤ length image.now / 16) × (length image.now / 16 ≤ length marks.now) × Supplied (fourth_of marks.now image.now)
        × LeadsOf (fourth_of marks.now image.now) leads.now
        × (r ∈ fourth_of marks.now image.now) }
    ensures { result ≡ kept_by_five (fourth_of marks.now image.now) (left_items 0 (take i (marked_of marks.now
        image.now))) r }
{
    if r.kind == WAITING_DOT {
        return is_lead(leads, r.index as usize);
    }
    if r.kind == WAITING_KEY {
        return has_room(image, marks, leads, i, r);
    }
    true
}

// Step 5, what goes: clocks that a lower index has, keys that their united clock has, and those above its 16 lowest.
fn mark_united(image: &[u8], marks: &mut [u16], leads: &[u16])
    requires { (length image.now / 16 ≤ length marks.old) × Says marks.old image.now (after_four (records_of image.now))
        × LeadsOf (staying (after_four (records_of image.now))) leads.now }
    ensures { Says marks.new image.now (united_fates (records_of image.now))
        × (fourth_of marks.new image.now ≡ staying (after_four (records_of image.now))) }
{
    let n = image.len() / 16;
    for i in 0..n {
        if marks[i] == 0
            && !is_united(image, marks, leads, i, records::read_record(image, i * 16))
        {
            marks[i] = 5;
        }
    }
}

// How many values that step 4 left have this key and a lower index.
fn values_below(image: &[u8], marks: &[u16], key: u32, index: u8) -> u16
    requires { (length image.now / 16 ≤ length marks.now) × (length image.now ≤ map_longest) }
    ensures { (result ≡ length (those (λ s. under_key value_kind key s && ltb s.index index) (fourth_of marks.now image.now)))
        × (result ≤ length image.now / 16) }
{
    let n = image.len() / 16;
    let mut count: u16 = 0;
    for i in 0..n {
        if culling::is_left(5, marks[i]) {
            let s = records::read_record(image, i * 16);
            if ((s.kind == VALUE) & (s.key == key)) & (s.index < index) {
                count += 1;
            }
        }
    }
    count
}

// The index that a record takes.
fn new_index(image: &[u8], marks: &[u16], ranks: &[u16], r: Record) -> u16
    requires { (length image.now / 16 ≤ length marks.now) × (length image.now ≤ map_longest) × Supplied (fourth_of marks.now
        image.now) × RanksOf (fourth_of marks.now image.now) ranks.now
        × (r ∈ fourth_of marks.now image.now) }
    ensures { (result ≡ new_index (fourth_of marks.now image.now) r) × (result < 256) }
{
    if (r.kind == VALUE) | (r.kind == VALUE_DOT) {
        return values_below(image, marks, r.key, r.index);
    }
    if (r.kind == WAITING_DOT) | (r.kind == WAITING_KEY) {
        return ranks[r.index as usize];
    }
    r.index as u16
}

// Step 5, what changes: index gaps are closed, and waiting clocks put in order.
fn mark_changed(image: &[u8], marks: &mut [u16], ranks: &[u16])
    requires { (length image.now / 16 ≤ length marks.old) × (length image.now ≤ map_longest)
        × Says marks.old image.now (united_fates (records_of image.now))
        × (fourth_of marks.old image.now ≡ staying (after_four (records_of image.now)))
        × RanksOf (staying (after_four (records_of image.now))) ranks.now }
    ensures { Tells marks.new image.now (fates_of (records_of image.now)) }
{
    let n = image.len() / 16;
    for i in 0..n {
        if marks[i] == 0 {
            let r = records::read_record(image, i * 16);
            let index = new_index(image, marks, ranks, r);
            if index != r.index as u16 {
                marks[i] = CHANGED + index;
            }
        }
    }
}

// Step 5.
pub fn mark_indexes(image: &[u8], marks: &mut [u16])
    requires { (length image.now / 16 ≤ length marks.old) × (length image.now ≤ map_longest)
        × Says marks.old image.now (after_four (records_of image.now)) }
    ensures { Tells marks.new image.now (fates_of (records_of image.now)) }
{
    let mut leads = [256u16; INDEXES];
    let mut ranks = [256u16; INDEXES];
    find_leads(image, marks, &mut leads);
    find_ranks(image, marks, &leads, &mut ranks);
    mark_united(image, marks, &leads);
    mark_changed(image, marks, &ranks);
}
