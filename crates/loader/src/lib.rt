// The boot loader's choice: for a bay, the smallest of the values that no other has overwritten, as a report of eleven bytes.
#![tactic(auto)]

ghost use Rattle.std.specs.Prelude.{◌≡◌, List, [], ◌∷◌, ◌++◌, ℕ, ◌*◌, ◌+◌, ◌≤◌, ◌<◌, length, get_or};
ghost use Rattle.register.specs.declared.Value.{Value};
ghost use Rattle.limits.specs.Limits.{value_limit};
ghost use Rattle.register.specs.Values.{no_value};
ghost use Rattle.records.specs.Writing.{Wrote};
ghost use Rattle.records.specs.Kinds.{value_kind};
ghost use Rattle.mapimage.specs.MapImage.{flat_from, value_records};
ghost use Rattle.maprecords.specs.Related.{read_map};
ghost use Rattle.layout.specs.Whole.{Lies};
ghost use Rattle.keyed.specs.Keyed.{RecordsLie, Registered};
ghost use Rattle.comparing.specs.Registers.{RunsOf};
ghost use Rattle.loader.specs.Choice.{is_below, report_on, report_of};
ghost use Rattle.loader.specs.Reports.{report_at, report_bytes, reports_after};
ghost use Rattle.loader.specs.Calls.{bay_count, is_bay, BayPromise, BaysPromise};

use clock::Order;
use entrywalk::VALUE_STARTS;
use walks::{Layout, Span};

// The keys that are bays: from 1 to this.
pub const BAYS: u32 = 24;

// The bytes of a report, and of the reports of all bays.
pub const REPORT: usize = 11;

pub const REPORTS: usize = BAYS as usize * REPORT;

// How many values remained, whether they differ, whether there is one, and the one taken.
#[derive(Clone, Copy)]
pub struct Report {
    pub count: u8,
    pub differ: bool,
    pub found: bool,
    pub value: u64,
}

// Whether the clock of the value at place k is strictly below that of another, by the runs of their dots where they lie.
fn is_below(map: &[u8], starts: [usize; VALUE_STARTS], n: usize, k: usize) -> bool
    requires { (k < n) × ((l : List Value) × RunsOf map.now starts n l) }
    ensures { (l : List Value) → RunsOf map.now starts n l → result ≡ is_below l (get_or l k no_value) }
{
    let run = comparing::value_run(map, starts, k);
    for j in 0..n {
        if let Order::Less = comparing::compare_runs(run, comparing::value_run(map, starts, j)) {
            return true;
        }
    }
    false
}

// The number that the record of the value at place k says.
fn number_at(map: &[u8], values: Span, k: usize) -> u64
    requires { (key : ℕ) × (l : List Value) × RecordsLie map.now (flat_from (value_records value_kind key) 0 l) values × (k < length l) }
    ensures { (key : ℕ) (l : List Value) → RecordsLie map.now (flat_from (value_records value_kind key) 0 l) values → k < length l
        → result ≡ (get_or l k no_value).value.number }
{
    records::read64(map, (values.from + k) * 16 + 8)
}

// A report with one value more.
fn with_value(r: Report, value: u64) -> Report
    requires { r.count < value_limit }
    ensures { (result.count ≡ r.count + 1) × ((l : List Value) (v : Value) → r ≡ report_on l → value ≡ v.value.number
        → result ≡ report_on (l ++ (v ∷ []))) }
{
    let count = r.count + 1;
    let found = true;
    if !r.found {
        return Report {
            count,
            differ: false,
            found,
            value,
        };
    }
    if value < r.value {
        return Report {
            count,
            differ: true,
            found,
            value,
        };
    }
    Report {
        count,
        differ: r.differ | (r.value < value),
        found,
        value: r.value,
    }
}

// The choice on a register where it lies.
fn choose(map: &[u8], values: Span, clocks: Span) -> Report
    requires { (l : List Value) × Registered map.now l values clocks }
    ensures { (l : List Value) → Registered map.now l values clocks → result ≡ report_of l }
{
    let n = values.to - values.from;
    let starts = entrywalk::starts_of(map, n, clocks.from, clocks.to);
    let mut r = Report {
        count: 0,
        differ: false,
        found: false,
        value: 0,
    };
    for i in 0..n {
        if !is_below(map, starts, n, i) {
            r = with_value(r, number_at(map, values, i));
        }
    }
    r
}

// The report of a bay of an image.
fn report_at(map: &[u8], l: Layout, bay: u32) -> Report
    requires { Lies map.now (read_map map.now).map l }
    ensures { result ≡ report_at (read_map map.now).map bay }
{
    let at = keyed::spans_of(map, l, bay);
    choose(map, at.values, at.clocks)
}

// Writes a report at `at`, and answers the place behind it.
fn write_report(out: &mut [u8], at: usize, r: Report) -> usize
    requires { at + 11 ≤ length out.old }
    ensures { Wrote at (report_bytes r) out.old out.new result }
{
    records::put8(out, at, r.count);
    records::put8(out, at + 1, records::flag(r.differ));
    records::put8(out, at + 2, records::flag(r.found));
    records::put64(out, at + 3, r.value);
    at + REPORT
}

// Writes the reports of all bays.
fn write_reports(map: &[u8], l: Layout, out: &mut [u8]) -> usize
    requires { Lies map.now (read_map map.now).map l × (bay_count * 11 ≤ length out.old) }
    ensures { Wrote 0 (reports_after (read_map map.now).map 0 bay_count) out.old out.new result }
{
    let mut next: usize = 0;
    for bay in 1..=BAYS {
        next = write_report(out, next, report_at(map, l, bay));
    }
    next
}

fn is_bay(key: u32) -> bool
    ensures { result ≡ is_bay key }
{
    (1 <= key) & (key <= BAYS)
}

#[unsafe(no_mangle)]
pub extern "C" fn castribba_bay(map: &[u8], bay: u32, out: &mut [u8]) -> u64
    ensures { BayPromise map.now bay out.old out.new result }
{
    let l = layout::lay_out(map);
    if l.number != 0 {
        return answers::word(l.number);
    }
    if !is_bay(bay) {
        return answers::word(14);
    }
    if out.len() < REPORT {
        return answers::word(10);
    }
    let r = report_at(map, l.layout, bay);
    write_report(out, 0, r) as u64
}

#[unsafe(no_mangle)]
pub extern "C" fn castribba_bays(map: &[u8], out: &mut [u8]) -> u64
    ensures { BaysPromise map.now out.old out.new result }
{
    let l = layout::lay_out(map);
    if l.number != 0 {
        return answers::word(l.number);
    }
    if out.len() < REPORTS {
        return answers::word(10);
    }
    write_reports(map, l.layout, out) as u64
}
