// The salvage of a damaged image: an accepted image of what can be kept, and a report of every record that was removed or changed.
#![tactic(auto)]

ghost use Rattle.std.specs.Prelude.{◌≡◌, cond, [], ◌∷◌, ℕ, ◌+◌, ◌*◌, ◌/◌, ◌≤◌, ◌<◌, ltb, length, get_or};
ghost use Rattle.records.specs.Bytes.{num_bytes};
ghost use Rattle.records.specs.Records.{records_of, bytes_of};
ghost use Rattle.records.specs.Writing.{Wrote};
ghost use Rattle.opimage.specs.OpImage.{no_record};
ghost use Rattle.mapimage.specs.MapImage.{map_longest};
ghost use Rattle.salvagerules.specs.Steps.{fates_of};
ghost use Rattle.salvagerules.specs.Report.{Told, told_from, told_bytes};
ghost use Rattle.salvagerules.specs.Calls.{SalvagePromise, SalvageReportPromise};
ghost use Rattle.culling.specs.Marks.{marked_of};
ghost use Rattle.mending.specs.Fated.{Tells};
ghost use Rattle.salvage.specs.Selecting.{renewed_of, kept_of, lesser_of, least_above, select_from, steps_in};

use culling::CHANGED;
use mapimage::MAP_LONGEST;
use records::Record;

// The records of the longest image.
const RECORDS: usize = MAP_LONGEST / 16;

// The bytes of a record in a report.
const TOLD: usize = 5;

// What becomes of each record.
fn mark_all(image: &[u8], marks: &mut [u16])
    requires { (length image.now / 16 ≤ length marks.old) × (length image.now ≤ map_longest) }
    ensures { Tells marks.new image.now (fates_of (records_of image.now)) }
{
    culling::mark_bad(image, marks);
    culling::mark_order(image, marks);
    culling::mark_needs(image, marks);
    mending::mark_indexes(image, marks);
}

// How many records stay.
fn count_kept(image: &[u8], marks: &[u16]) -> usize
    requires { length image.now / 16 ≤ length marks.now }
    ensures { (result ≡ length (kept_of (marked_of marks.now image.now))) × (result ≤ length image.now / 16) }
{
    let n = image.len() / 16;
    let mut count: usize = 0;
    for mark in &marks[..n] {
        if culling::is_left(CHANGED, *mark) {
            count += 1;
        }
    }
    count
}

// A record with the index that its mark gives it.
fn renewed(mark: u16, r: Record) -> Record
    requires { mark < 264 }
    ensures { result ≡ renewed_of (record { mark = mark; item = r }) }
{
    if mark < CHANGED {
        return r;
    }
    Record {
        index: (mark - CHANGED) as u8,
        ..r
    }
}

// The lesser of a record above `last` and the least so far.
fn lesser(last: Record, best: Record, r: Record) -> Record
    ensures { result ≡ lesser_of last best r }
{
    if records::before(last, r) & records::before(r, best) {
        r
    } else {
        best
    }
}

// Of the records that stay, the least above `last`.
fn next_record(image: &[u8], marks: &[u16], last: Record) -> Record
    requires { (length image.now / 16 ≤ length marks.now) × ((i : ℕ) → i < length image.now / 16 → get_or marks.now i 0 < 264) }
    ensures { result ≡ least_above last (kept_of (marked_of marks.now image.now)) }
{
    let n = image.len() / 16;
    let mut best = Record {
        kind: 255,
        index: 0,
        actor: 0,
        key: 0,
        number: 0,
    };
    for i in 0..n {
        let mark = marks[i];
        if culling::is_left(CHANGED, mark) {
            best = lesser(
                last,
                best,
                renewed(mark, records::read_record(image, i * 16)),
            );
        }
    }
    best
}

// Writes the n records that stay, in their order.
fn write_kept(image: &[u8], marks: &[u16], n: usize, out: &mut [u8]) -> usize
    requires { (length image.now / 16 ≤ length marks.now) × ((i : ℕ) → i < length image.now / 16 → get_or marks.now i 0 < 264)
        × (n * 16 ≤ length out.old) }
    ensures { Wrote 0 (bytes_of (select_from n no_record (kept_of (marked_of marks.now image.now))))
        out.old out.new result }
{
    let mut last = Record {
        kind: 0,
        index: 0,
        actor: 0,
        key: 0,
        number: 0,
    };
    let mut next: usize = 0;
    for _ in 0..n {
        last = next_record(image, marks, last);
        next = records::write_record(out, next, last);
    }
    next
}

// The step that a mark tells.
fn step_of(mark: u16) -> u8
    requires { mark < 264 }
    ensures { result ≡ cond (ltb mark 8) mark 5 }
{
    if mark < CHANGED { mark as u8 } else { 5 }
}

// Writes what is told of a record, and answers the place behind it.
fn write_told(out: &mut [u8], at: usize, place: u32, step: u8) -> usize
    requires { at + 5 ≤ length out.old }
    ensures { Wrote at (told_bytes (record { place = place; step = step } ∷ [])) out.old out.new result }
{
    records::put32(out, at, place);
    records::put8(out, at + 4, step);
    at + TOLD
}

// How many records are told.
fn count_told(image: &[u8], marks: &[u16]) -> usize
    requires { length image.now / 16 ≤ length marks.now }
    ensures { (result ≡ length (told_from 0 (steps_in (marked_of marks.now image.now)))) × (result ≤ length image.now / 16) }
{
    let n = image.len() / 16;
    let mut count: usize = 0;
    for mark in &marks[..n] {
        if *mark != 0 {
            count += 1;
        }
    }
    count
}

// Writes what is told of the whole records.
fn write_report(image: &[u8], marks: &[u16], out: &mut [u8]) -> usize
    requires { (length image.now / 16 ≤ length marks.now) × ((i : ℕ) → i < length image.now / 16 → get_or marks.now i 0 < 264)
        × (length image.now ≤ map_longest)
        × (length (told_from 0 (steps_in (marked_of marks.now image.now))) * 5 ≤ length out.old) }
    ensures { Wrote 0 (told_bytes (told_from 0 (steps_in (marked_of marks.now image.now))))
        out.old out.new result }
{
    let n = image.len() / 16;
    let mut next: usize = 0;
    for i in 0..n {
        let mark = marks[i];
        if mark != 0 {
            next = write_told(out, next, i as u32, step_of(mark));
        }
    }
    next
}

#[unsafe(no_mangle)]
pub extern "C" fn castribba_salvage(image: &[u8], out: &mut [u8]) -> u64
    ensures { SalvagePromise image.now out.old out.new result }
{
    if MAP_LONGEST < image.len() {
        return answers::word(2);
    }
    let mut marks = [1u16; RECORDS];
    mark_all(image, &mut marks);
    let n = count_kept(image, &marks);
    if out.len() < n * 16 {
        return answers::word(10);
    }
    write_kept(image, &marks, n, out) as u64
}

#[unsafe(no_mangle)]
pub extern "C" fn castribba_salvage_report(image: &[u8], out: &mut [u8]) -> u64
    ensures { SalvageReportPromise image.now out.old out.new result }
{
    if MAP_LONGEST < image.len() {
        return answers::word(2);
    }
    let mut marks = [1u16; RECORDS];
    mark_all(image, &mut marks);
    let told = count_told(image, &marks);
    if image.len() % 16 == 0 {
        if out.len() < told * TOLD {
            return answers::word(10);
        }
        return write_report(image, &marks, out) as u64;
    }
    if out.len() < (told + 1) * TOLD {
        return answers::word(10);
    }
    let next = write_report(image, &marks, out);
    write_told(out, next, (image.len() / 16) as u32, 1) as u64
}
