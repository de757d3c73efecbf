// A map's image recognised where it stands, and the places of its sections.
#![tactic(auto)]

ghost use Rattle.std.specs.Prelude.{◌≡◌, ◌+◌, ◌<◌};
ghost use Rattle.records.specs.Records.{records_of};
ghost use Rattle.refusals.specs.Numbers.{number_for};
ghost use Rattle.maprecords.specs.Related.{read_map};
ghost use Rattle.layout.specs.Whole.{Parted, slow_number, LaidOut};

use clock::Clock;
use limits::{ENTRIES, WAITING};
use records::{CLOCK_DOT, ENTRY_DOT, VALUE, VALUE_DOT, WAITING_DOT, WAITING_KEY};
use refusals::Refusal;
use scan::Scan;
use walks::{BY_KIND, Layout};

// The places where the kinds begin, where kinds ascend.
fn sections(s: &[u8]) -> Layout
    ensures { Parted s.now result }
{
    let end = s.len() / 16;
    let second = walks::first_from(s, BY_KIND, ENTRY_DOT as u64, 0, end);
    let third = walks::first_from(s, BY_KIND, VALUE as u64, second, end);
    let fourth = walks::first_from(s, BY_KIND, VALUE_DOT as u64, third, end);
    let fifth = walks::first_from(s, BY_KIND, WAITING_DOT as u64, fourth, end);
    let sixth = walks::first_from(s, BY_KIND, WAITING_KEY as u64, fifth, end);
    Layout {
        second,
        third,
        fourth,
        fifth,
        sixth,
        end,
    }
}

// Of an image that is refused: malformed or over a limit where its records show it one by one, else unrelated.
fn slow_refusal(s: &[u8]) -> Refusal
    ensures { number_for result ≡ slow_number (records_of s.now) }
{
    let n = s.len() / 16;
    let mut scan = Scan::new();
    let mut under = [0u8; 256];
    for i in 0..n {
        let r = records::read_record(s, i * 16);
        let x = r.index as usize;
        let u = under[x];
        scan = scan.take(CLOCK_DOT, WAITING_KEY, r, u);
        under[x] = scan::under(u, r.kind);
    }
    match scan::verdict(scan.number) {
        Ok(()) => Refusal::Unrelated,
        Err(refusal) => refusal,
    }
}

// A verdict on an image, the map clock, and where the rest stands.
#[derive(Clone, Copy)]
pub struct Laid {
    pub number: u8,
    pub entries: usize,
    pub waits: usize,
    pub clock: Clock,
    pub layout: Layout,
}

fn refused(refusal: Refusal) -> Laid
    ensures { result.number ≡ number_for refusal }
{
    let clock = Clock::new();
    let layout = Layout {
        second: 0,
        third: 0,
        fourth: 0,
        fifth: 0,
        sixth: 0,
        end: 0,
    };
    Laid {
        number: refusal.number(),
        entries: 0,
        waits: 0,
        clock,
        layout,
    }
}

// What an image is, and where its parts stand. No `Result` of a `Laid` is handed on here: each call that reads a map would copy it twice.
pub fn lay_out(s: &[u8]) -> Laid
    ensures { (result.number ≡ (read_map s.now).number) × (result.number ≡ 0 → LaidOut s.now (read_map s.now).map result) }
{
    if let Err(refusal) = maprecords::check_length(s.len()) {
        return refused(refusal);
    }
    let layout = sections(s);
    let second = layout.second;
    let sixth = layout.sixth;
    let end = layout.end;
    let run = walks::run_end(s, 0, second, CLOCK_DOT, 0, 0);
    if run != second {
        return refused(slow_refusal(s));
    }
    let to = second * 16;
    let clock = runs::clock_of(&s[0..to]);
    let entries = walks::count_entries(s, layout, clock);
    let waits = walks::count_waiting(s, layout);
    if (ENTRIES < entries) | (WAITING < waits) {
        return refused(slow_refusal(s));
    }
    if !walks::keys_good(s, sixth, end, waits) {
        return refused(slow_refusal(s));
    }
    Laid {
        number: 0,
        entries,
        waits,
        clock,
        layout,
    }
}
