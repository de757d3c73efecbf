// The file of cases that replay makes: decimal numbers in a fixed order, and between them whatever helps a reader.
#![tactic(auto)]

ghost use Rattle.std.specs.Prelude.{◌<◌};

use clock::{Clock, Dot};
use limits::{DOTS, ENTRIES, KEYS, VALUES, WAITING};
use records::{CLOCK_DOT, Record};

// The records that a buffer has room for, a dozen more than the longest map has, and their bytes.
pub const RECORDS: usize = DOTS
    + ENTRIES * (DOTS + VALUES * (1 + DOTS))
    + WAITING * (DOTS + KEYS)
    + 12;

pub const BUFFER: usize = RECORDS * 16;

// One more than a buffer has bytes.
const LENGTHS: u64 = 28993;

// One call with its plain arguments, and the word that the oracle answers.
#[derive(Clone, Copy)]
pub struct Question {
    pub call: usize,
    // Whether its images follow; otherwise they are those of the case before.
    pub fresh: bool,
    pub actor: u16,
    pub key: u32,
    pub value: u64,
    pub origin: u16,
    // The length of the output buffer.
    pub room: usize,
    pub number: usize,
    pub word: u64,
}

// An image at the start of a buffer.
#[derive(Drop)]
pub struct Image {
    pub buffer: [u8; BUFFER],
    pub len: usize,
}

impl Image {
    // No image, in a buffer full of one byte.
    pub fn painted(paint: u8) -> Self {
        Image {
            buffer: [paint; BUFFER],
            len: 0,
        }
    }

    pub fn bytes(&self) -> &[u8] {
        &self.buffer[..self.len.min(BUFFER)]
    }
}

// What of a file is not read yet.
#[derive(Drop)]
pub struct Reader<'a> {
    rest: &'a [u8],
}

impl<'a> Reader<'a> {
    pub fn new(file: &'a [u8]) -> Self {
        Reader { rest: file }
    }

    // The next number; 0 behind the last one. The low half of a digit's byte is the digit.
    pub fn number(&mut self) -> u64 {
        let file = self.rest;
        let start = file
            .iter()
            .position(|b| b.is_ascii_digit())
            .unwrap_or(file.len());
        let file = &file[start..];
        let end = file
            .iter()
            .position(|b| !b.is_ascii_digit())
            .unwrap_or(file.len());
        self.rest = &file[end..];
        let mut value: u64 = 0;
        for digit in &file[..end] {
            value = value.wrapping_mul(10).wrapping_add(u64::from(*digit % 16));
        }
        value
    }

    // A field too large for its type is cut to it: the host writes none, and the file's sum tells of others.
    pub fn question(&mut self) -> Question {
        let call = (self.number() % 21) as usize;
        let fresh = self.number() != 0;
        let actor = (self.number() % 65536) as u16;
        let key = (self.number() % 4294967296) as u32;
        let value = self.number();
        let origin = (self.number() % 65536) as u16;
        let room = (self.number() % LENGTHS) as usize;
        let number = self.number() % 13;
        let length = self.number();
        Question {
            call,
            fresh,
            actor,
            key,
            value,
            origin,
            room,
            number: number as usize,
            word: (number * 4294967296).wrapping_add(length),
        }
    }

    fn record(&mut self) -> Record {
        Record {
            kind: (self.number() % 256) as u8,
            index: (self.number() % 256) as u8,
            actor: (self.number() % 65536) as u16,
            key: (self.number() % 4294967296) as u32,
            number: self.number(),
        }
    }

    // Reads an image: its length in bytes, and records until there are that many; the last may be cut.
    pub fn image(&mut self, into: &mut Image) {
        into.len = (self.number() % LENGTHS) as usize;
        for i in 0..into.len.div_ceil(16) {
            records::write_record(&mut into.buffer, i * 16, self.record());
        }
    }
}

fn dot(image: &[u8; BUFFER], place: usize) -> Dot
    requires { place < 9 }
{
    let r = records::read_record(image, place * 16);
    Dot {
        actor: r.actor,
        counter: r.number,
    }
}

fn put(out: &mut [u8; BUFFER], place: usize, d: Dot)
    requires { place < 9 }
{
    let record = Record {
        kind: CLOCK_DOT,
        index: 0,
        actor: d.actor,
        key: 0,
        number: d.counter,
    };
    records::write_record(out, place * 16, record);
}

// A lent clock is written as its eight places and, in a ninth record, its length.
pub fn lent_clock(image: &[u8; BUFFER]) -> Clock {
    let mut dots = [Dot {
        actor: 0,
        counter: 0,
    }; DOTS];
    for i in 0..DOTS {
        dots[i] = dot(image, i);
    }
    Clock {
        dots,
        len: dot(image, DOTS).counter as usize,
    }
}

pub fn write_lent_clock(out: &mut [u8; BUFFER], clock: Clock) {
    for i in 0..DOTS {
        put(out, i, clock.dots[i]);
    }
    let length = Dot {
        actor: 0,
        counter: clock.len as u64,
    };
    put(out, DOTS, length);
}

// Adler-32 of the whole file, so that a changed file shows.
pub fn sum(file: &[u8]) -> u64 {
    let mut low: u64 = 1;
    let mut high: u64 = 0;
    for b in file {
        low = (low + u64::from(*b)) % 65521;
        high = (high + low) % 65521;
    }
    high * 65536 + low
}
