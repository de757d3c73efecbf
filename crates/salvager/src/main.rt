// Mends a damaged map image from standard input: the mended image goes to standard output, and a line for each record that was removed
// or changed to standard error.
#![tactic(auto)]

use mapimage::MAP_LONGEST;
use std::{fmt, io};

// Room for one byte more than the longest image.
const ROOM: usize = MAP_LONGEST + 1;

// The bytes of a record in a report: its place, and its step.
const TOLD: usize = 5;

// Room for the report of so many bytes: each record, and a part of one.
const REPORT: usize = (MAP_LONGEST / 16 + 1) * TOLD;

// What was done to a record, and the step that did it.
#[derive(Clone, Copy)]
struct Told {
    place: u32,
    step: u8,
}

impl fmt::Display for Told {
    fn fmt<W: fmt::Write>(&self, f: &mut fmt::Formatter<W>) -> fmt::Result {
        let done = match self.step {
            1 => "removed: only a part of a record",
            2 => "removed: bad by itself",
            3 => "removed: not above the last one kept",
            4 => "removed: what it needs is missing, or its limit is full",
            _ => "another index, or removed: its waiting clock is united with an equal one",
        };
        write!(f, "record {}, step {}, {done}", self.place, self.step)
    }
}

// A line for each record of a report.
fn print_report(rt: &impl Eprint, report: &[u8]) -> io::Result<()> {
    for i in 0..report.len() / TOLD {
        let told = Told {
            place: records::read32(report, i * TOLD),
            step: report[i * TOLD + 4],
        };
        eprintln!(rt; "{told}")?;
    }
    Ok(())
}

fn mend(rt: &(impl Print + Eprint), image: &[u8]) -> io::Result<()> {
    if MAP_LONGEST < image.len() {
        return eprintln!(rt; "refused: longer than an image can be");
    }
    let mut out = [0u8; MAP_LONGEST];
    let word = salvage::castribba_salvage(image, &mut out);
    if let Some(mended) = out.get(..word as usize) {
        rt.write_all(mended)?;
    }
    let mut told = [0u8; REPORT];
    let word = salvage::castribba_salvage_report(image, &mut told);
    if let Some(report) = told.get(..word as usize) {
        print_report(rt, report)?;
    }
    Ok(())
}

// One byte more than the longest image is read, so that a longer file is seen to be longer.
fn main(rt: HostRuntime) -> io::Result<()> {
    let mut space = [0u8; ROOM];
    match input::read_whole(&mut rt.stdin(), &mut space) {
        Some(n) => mend(&rt, &space[..n]),
        None => eprintln!(rt; "salvager: the input could not be read to its end"),
    }
}
