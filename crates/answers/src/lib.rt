// What the calls of castribba.h share: refusing, and writing an image where it fits.
#![tactic(auto)]

ghost use Rattle.std.specs.Prelude.{◌≡◌, ◌+◌, ◌*◌, ◌^◌, ◌≤◌, length, IfOk};
ghost use Rattle.register.specs.Values.{values_of};
ghost use Rattle.limits.specs.Limits.{waiting_limit};
ghost use Rattle.removals.specs.Model.{waiting_of};
ghost use Rattle.entries.specs.Model.{entries_of};
ghost use Rattle.map.specs.Model.{waiting_in, no_map, no_op};
ghost use Rattle.map.specs.Valid.{Valid};
ghost use Rattle.opimage.specs.OpImage.{op_longest, op_image};
ghost use Rattle.mapimage.specs.MapImage.{map_longest, map_image};
ghost use Rattle.answers.specs.Answer.{Answered, word_in};
ghost use Rattle.refusals.specs.Numbers.{number_told, done_or};
ghost use Rattle.listlaws.specs.Fold.{total_of};
ghost use Rattle.answers.specs.Sizes.{value_size, entry_size, removal_size, register_most, entries_most, waiting_most, map_size};

use entries::Entries;
use map::{Map, Op};
use refusals::Refusal;
use register::Register;
use removals::Waiting;

// The word of a refusal, and of an answer with no bytes.
pub fn word(number: u8) -> u64
    ensures { result ≡ number * 2 ^ 32 }
{
    number as u64 * 0x1_0000_0000
}

// The word of so many bytes written, or of a refusal.
pub fn told(answer: Result<usize, Refusal>) -> u64
    ensures { result ≡ word_in answer }
{
    match answer {
        Ok(n) => n as u64,
        Err(refusal) => word(refusal.number()),
    }
}

pub fn count_values(register: Register) -> usize
    ensures { (result ≡ total_of value_size (values_of register)) × (result ≤ register_most) }
{
    let mut total: usize = 0;
    for v in register.as_slice() {
        total += 1 + v.clock.size();
    }
    total
}

fn count_entries(entries: Entries) -> usize
    ensures { (result ≡ total_of entry_size (entries_of entries)) × (result ≤ entries_most) }
{
    let mut total: usize = 0;
    for e in entries.as_slice() {
        total += e.clock.size() + count_values(e.register);
    }
    total
}

fn count_waiting(waiting: Waiting) -> usize
    ensures { (result ≡ total_of removal_size (waiting_of waiting)) × ((result ≤ waiting_most) × (length (waiting_of waiting) ≤ waiting_limit)) }
{
    let mut total: usize = 0;
    for w in waiting.as_slice() {
        total += w.clock.size() + w.keys.size();
    }
    total
}

// The length of a map's image.
pub fn map_length(map: Map) -> usize
    ensures { (result ≡ map_size map * 16) × ((result ≤ map_longest) × (length (waiting_in map) ≤ waiting_limit)) }
{
    let clock = map.clock;
    let entries = map.entries;
    let waiting = map.waiting;
    (clock.size() + (count_entries(entries) + count_waiting(waiting))) * 16
}

// The length of an operation's image.
pub fn op_length(op: Op) -> usize
    ensures { (result ≡ length (op_image op)) × (result ≤ op_longest) }
{
    if op.up {
        let update = op.update;
        let put = update.put;
        let clock = put.clock;
        return (2 + clock.size()) * 16;
    }
    let removal = op.removal;
    let clock = removal.clock;
    let keys = removal.keys;
    (1 + (clock.size() + keys.size())) * 16
}

// Answers a map, or why there is none, where there is room for it.
pub fn give_map(map: Result<Map, Refusal>, out: &mut [u8]) -> Result<usize, Refusal>
    requires { IfOk map (λ m. Valid m) }
    ensures { Answered (record { first = 0; second = 0; own = number_told map; bytes = map_image (done_or no_map map) }) out.old out.new
        (word_in result) × IfOk result (λ n. n ≡ length (map_image (done_or no_map map))) }
{
    let map = map?;
    if out.len() < map_length(map) {
        return Err(Refusal::ShortBuffer); // nothing is written
    }
    Ok(mapimage::write_map(map, out))
}

// Answers an operation, or why it can't be made, where there is room for it. Inlined, so that the operation is not copied into a `Result`.
#[inline(always)]
pub fn give_op(op: Result<Op, Refusal>, out: &mut [u8]) -> Result<usize, Refusal>
    ensures { Answered (record { first = 0; second = 0; own = number_told op; bytes = op_image (done_or no_op op) }) out.old out.new
        (word_in result) × IfOk result (λ n. n ≡ length (op_image (done_or no_op op))) }
{
    let op = op?;
    if out.len() < op_length(op) {
        return Err(Refusal::ShortBuffer);
    }
    Ok(opimage::write_op(op, out))
}
