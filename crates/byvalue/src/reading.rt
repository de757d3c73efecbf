// A map by value, of its image: read by the reader of pieces, and taken out of the reader's memory at the end.
ghost use Rattle.std.specs.Prelude.{◌≡◌, ◌<◌};
ghost use Rattle.limits.specs.Limits.{waiting_limit};
ghost use Rattle.removals.specs.Model.{keys_as, waiting_as};
ghost use Rattle.entries.specs.Model.{entries_as};
ghost use Rattle.map.specs.Model.{map_as};
ghost use Rattle.maprecords.specs.Related.{map_reading, read_map};
ghost use Rattle.memory.specs.Memory.{clock_place, dots_at, entries_at, listed_at, removal_at, waiting_at};

use entries::Entries;
use limits::{ENTRIES, KEYS, WAITING};
use map::Map;
use memory::{CLOCK, CLOCK_ROOM, ENTRY_COUNT, READER, REMOVAL_PLACE, REMOVAL_ROOM, WAITING_COUNT};
use refusals::Refusal;
use removals::{Keys, Removal, Waiting};

fn entries_of(mem: &[u8; READER]) -> Entries
    ensures { result ≡ entries_as (entries_at mem.now) }
{
    let n = memory::count(mem, ENTRY_COUNT, ENTRIES);
    let mut entries = Entries::new();
    for j in 0..n {
        let e = delivery::entry_at(mem, j);
        let k = entries.len;
        entries.items[k] = e;
        entries.len = k + 1;
    }
    entries
}

// The keys of a waiting removal, by its place among them.
fn keys_at(mem: &[u8; READER], k: usize) -> Keys
    requires { k < waiting_limit }
    ensures { result ≡ keys_as (listed_at mem.now k) }
{
    let at = REMOVAL_PLACE + k * REMOVAL_ROOM + CLOCK_ROOM;
    let n = memory::count(mem, at, KEYS);
    let mut keys = Keys::new();
    for i in 0..n {
        let key = records::read32(mem, at + 1 + i * 4);
        keys = keys.push(key);
    }
    keys
}

fn removal_at(mem: &[u8; READER], k: usize) -> Removal
    requires { k < waiting_limit }
    ensures { result ≡ removal_at mem.now k }
{
    let clock = delivery::clock_at(mem, REMOVAL_PLACE + k * REMOVAL_ROOM);
    let keys = keys_at(mem, k);
    Removal { clock, keys }
}

fn waiting_of(mem: &[u8; READER]) -> Waiting
    ensures { result ≡ waiting_as (waiting_at mem.now) }
{
    let n = memory::count(mem, WAITING_COUNT, WAITING);
    let mut waiting = Waiting::new();
    for k in 0..n {
        let r = removal_at(mem, k);
        let m = waiting.len;
        waiting.items[m] = r;
        waiting.len = m + 1;
    }
    waiting
}

fn map_of(mem: &[u8; READER]) -> Map
    ensures { result ≡ map_as (dots_at mem.now clock_place) (entries_at mem.now) (waiting_at mem.now) }
{
    let clock = delivery::clock_at(mem, CLOCK);
    let entries = entries_of(mem);
    let waiting = waiting_of(mem);
    Map {
        clock,
        entries,
        waiting,
    }
}

pub fn read_map(bytes: &[u8]) -> Result<Map, Refusal>
    ensures { map_reading result ≡ read_map bytes.now }
{
    let mut mem = [0u8; READER];
    mailbox::begin(&mut mem);
    mailbox::take(&mut mem, bytes);
    delivery::verdict(&mem)?;
    Ok(map_of(&mem))
}
