// A map's image that comes in pieces: a reader in memory that is lent, changed in place, byte by byte.
#![tactic(auto)]

ghost use Rattle.std.specs.Prelude.{◌≡◌, ◌<◌, set};
ghost use Rattle.memory.specs.Memory.{reader_room};
ghost use Rattle.mailbox.specs.Machine.{record_in, byte_in, take_word, take_in, begun};

use mapimage::MAP_LONGEST;
use memory::{CLOCK, HELD, LENGTH, LOST, OPEN, READER, UNDER};
use records::{CLOCK_DOT, Record, WAITING_KEY};

// A whole record.
fn take_record(mem: &mut [u8; READER], r: Record)
    ensures { mem.new ≡ record_in mem.old r }
{
    let at = UNDER + memory::wide(r.index);
    let n = mem[at];
    let lost = mem[LOST];
    let old = memory::scan_of(mem);
    let s = old.next(CLOCK_DOT, WAITING_KEY, r, n);
    records::put8(mem, at, scan::under(n, r.kind));
    memory::put_scan(mem, s);
    if s.number == 0 {
        if lost == 0 {
            memory::put_record(mem, r);
        }
    }
}

// A byte. What is longer than the longest image is only counted, to one more.
fn take_byte(mem: &mut [u8; READER], b: u8)
    ensures { mem.new ≡ byte_in mem.old b }
{
    let n = records::read32(mem, LENGTH);
    if n < MAP_LONGEST as u32 {
        let k = n % 16;
        records::put8(mem, HELD + k as usize, b);
        records::put32(mem, LENGTH, n + 1);
        if k == 15 {
            let r = records::read_record(mem, HELD);
            take_record(mem, r);
        }
    } else {
        records::put32(mem, LENGTH, MAP_LONGEST as u32 + 1);
    }
}

// A piece of any length; 13 after the end.
pub fn take(mem: &mut [u8; READER], piece: &[u8]) -> u64
    ensures { (result ≡ take_word mem.old) × (mem.new ≡ take_in mem.old piece.now) }
{
    if mem[OPEN] != 1 {
        return 13 * 0x1_0000_0000;
    }
    for b in piece {
        take_byte(mem, *b);
    }
    0
}

// A zero. One that stands there already is not written: a loop that writes them all is compiled to a call of memset, which no caller has.
fn clear(mem: &mut [u8; READER], at: usize)
    requires { at < reader_room }
    ensures { mem.new ≡ set mem.old at 0 }
{
    if mem[at] != 0 {
        mem[at] = 0;
    }
}

// A reader that has taken nothing, whatever the memory held: zeros from the length to the count of the map clock's dots.
pub fn begin(mem: &mut [u8; READER]) -> u64
    ensures { (result ≡ 0) × (mem.new ≡ begun mem.old) }
{
    records::put8(mem, OPEN, 1);
    for i in 0..CLOCK {
        clear(mem, LENGTH + i);
    }
    0
}
