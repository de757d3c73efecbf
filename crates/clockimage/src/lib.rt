// Images of clocks: read and written.
#![tactic(auto)]

ghost use Rattle.std.specs.Prelude.{◌≡◌, List, [], ◌∷◌, ◌++◌, true, cond, ◌+◌, ◌*◌, ◌≤◌, ◌<◌, length};
ghost use Rattle.clock.specs.declared.Dot.{Dot};
ghost use Rattle.limits.specs.Limits.{dot_limit};
ghost use Rattle.clock.specs.Dots.{dots_of, clock_of};
ghost use Rattle.records.specs.declared.Record.{Record};
ghost use Rattle.records.specs.Records.{bytes_of};
ghost use Rattle.records.specs.Writing.{Wrote};
ghost use Rattle.clockimage.specs.Image.{dot_records, dot_of};
ghost use Rattle.clockimage.specs.ClockImage.{clock_image, clock_reading, judged_clock, read_clock};
ghost use Rattle.clockimage.specs.SoFar.{ClockSoFar};

use clock::{Clock, Dot};
use limits::DOTS;
use records::{CLOCK_DOT, Record};
use refusals::Refusal;
use scan::Scan;

// The longest image of a clock.
pub const CLOCK_LONGEST: usize = DOTS * 16;

// A clock's image so far: it takes one record at a time, and is asked at the end.
#[derive(Clone, Copy)]
pub struct ClockReader {
    pub scan: Scan,
    pub clock: Clock,
}

// Writes the dots of a clock as records of a kind, index and key; answers the place behind them.
pub fn write_dots(out: &mut [u8], at: usize, kind: u8, index: u8, key: u32, clock: Clock) -> usize
    requires { at + length (dots_of clock) * 16 ≤ length out.old }
    ensures { Wrote at (bytes_of (dot_records kind index key (dots_of clock))) out.old out.new result }
{
    let mut next = at;
    for d in clock.as_slice() {
        let r = Record {
            kind,
            index,
            actor: d.actor,
            key,
            number: d.counter,
        };
        next = records::write_record(out, next, r);
    }
    next
}

// Writes the image of a clock at the start of `out`; answers its length.
pub fn write_clock(clock: Clock, out: &mut [u8]) -> usize
    requires { length (clock_image clock) ≤ length out.old }
    ensures { Wrote 0 (clock_image clock) out.old out.new result }
{
    write_dots(out, 0, CLOCK_DOT, 0, 0, clock)
}

impl ClockReader {
    pub fn new() -> ClockReader
        ensures { ClockSoFar [] result }
    {
        let scan = Scan::new();
        let clock = Clock::new();
        ClockReader { scan, clock }
    }

    // One record more.
    pub fn take(self, r: Record) -> ClockReader
        ensures { (l : List Record) → ClockSoFar l self → ClockSoFar (l ++ (r ∷ [])) result }
    {
        let before = self.scan;
        let scan = before.take(CLOCK_DOT, CLOCK_DOT, r, 0);
        let old = self.clock;
        let clock = clock_with(old, scan.number == 0, r);
        ClockReader { scan, clock }
    }

    // What the records are as a whole.
    pub fn verdict(self) -> Result<Clock, Refusal>
        ensures { (l : List Record) → ClockSoFar l self → clock_reading result ≡ judged_clock l }
    {
        scan::verdict(self.scan.number)?;
        Ok(self.clock)
    }
}

pub fn read_clock(bytes: &[u8]) -> Result<Clock, Refusal>
    ensures { clock_reading result ≡ read_clock bytes.now }
{
    let len = bytes.len();
    if CLOCK_LONGEST < len {
        return Err(Refusal::OverLimit);
    }
    if len % 16 != 0 {
        return Err(Refusal::Malformed);
    }
    let mut reader = ClockReader::new();
    for i in 0..len / 16 {
        let r = records::read_record(bytes, i * 16);
        reader = reader.take(r);
    }
    reader.verdict()
}

// The clock with the dot of a record behind its last, where `more` is set and there is room.
pub fn clock_with(clock: Clock, more: bool, r: Record) -> Clock
    ensures { (l : List Dot) → clock ≡ clock_of l → (more ≡ true → length l < dot_limit) → result ≡ clock_of (cond more (l ++ (dot_of r ∷ [])) l) }
{
    if more & (clock.len < DOTS) {
        let d = Dot {
            actor: r.actor,
            counter: r.number,
        };
        return clock.push(d);
    }
    clock
}
