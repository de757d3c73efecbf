// How many dots a removal and a reset delete from entry clocks, on maps by value.
ghost use Rattle.std.specs.Prelude.{◌≡◌, ℕ, ◌+◌, ◌*◌, ◌≤◌};
ghost use Rattle.limits.specs.Limits.{dot_limit, entry_limit};
ghost use Rattle.entries.specs.Model.{entries_of};
ghost use Rattle.map.specs.Valid.{Valid};
ghost use Rattle.refusals.specs.Numbers.{done_or};
ghost use Rattle.answers.specs.Answer.{Counted};
ghost use Rattle.promises.specs.Calls.{map_answer};
ghost use Rattle.promises.specs.Deleted.{dots_among, entry_dots};
ghost use Rattle.promises.specs.Promises.{ApplyDeletedPromise, ResetRemoveDeletedPromise};

use entries::Entries;
use map::Map;
use refusals::Refusal;

// The dots in all entry clocks.
fn count_dots(entries: Entries) -> usize
    ensures { (result ≡ dots_among (entries_of entries)) × (result ≤ entry_limit * dot_limit) }
{
    let mut total: usize = 0;
    for e in entries.as_slice() {
        let clock = e.clock;
        total += clock.size();
    }
    total
}

// How many dots a result has less than the entries before it, where there is so much room for it.
fn fewer(before: Entries, after: Map, room: usize) -> Result<u64, Refusal>
    requires { Valid after × (entry_dots after ≤ dots_among (entries_of before)) }
    ensures { (n : ℕ) → entry_dots after + n ≡ dots_among (entries_of before)
        → Counted (map_answer 0 0 (record { number = 0; map = after })) room n (done_or 0 result) }
{
    if room < answers::map_length(after) {
        return Err(Refusal::ShortBuffer);
    }
    Ok((count_dots(before) - count_dots(after.entries)) as u64)
}

pub fn apply_deleted(map: &[u8], op: &[u8], room: usize) -> u64
    ensures { ApplyDeletedPromise map.now op.now room result }
{
    match count_removed(map, op, room) {
        Ok(n) => n,
        Err(_) => 0,
    }
}

fn count_removed(map: &[u8], op: &[u8], room: usize) -> Result<u64, Refusal>
    ensures { ApplyDeletedPromise map.now op.now room (done_or 0 result) }
{
    let before = crate::reading::read_map(map)?;
    let change = opimage::read_op(op)?;
    if change.up {
        return Ok(0);
    }
    let after = before.apply(change)?;
    fewer(before.entries, after, room)
}

pub fn reset_remove_deleted(map: &[u8], clock: &[u8], room: usize) -> u64
    ensures { ResetRemoveDeletedPromise map.now clock.now room result }
{
    match count_reset(map, clock, room) {
        Ok(n) => n,
        Err(_) => 0,
    }
}

fn count_reset(map: &[u8], clock: &[u8], room: usize) -> Result<u64, Refusal>
    ensures { ResetRemoveDeletedPromise map.now clock.now room (done_or 0 result) }
{
    let before = crate::reading::read_map(map)?;
    let by = clockimage::read_clock(clock)?;
    let after = before.reset_remove(by)?;
    fewer(before.entries, after, room)
}
