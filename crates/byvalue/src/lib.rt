// The three calls that change a map, on maps by value: the form that is read beside the Rust.
#![tactic(auto)]

ghost use Rattle.std.specs.Prelude.{◌≡◌};
ghost use Rattle.answers.specs.Answer.{word_in};
ghost use Rattle.promises.specs.Promises.{ApplyPromise, MergePromise, ResetRemovePromise};

use refusals::Refusal;

pub mod counting;
pub mod reading;

pub fn apply(map: &[u8], op: &[u8], out: &mut [u8]) -> u64
    ensures { ApplyPromise map.now op.now out.old out.new result }
{
    answers::told(give_applied(map, op, out))
}

fn give_applied(map: &[u8], op: &[u8], out: &mut [u8]) -> Result<usize, Refusal>
    ensures { ApplyPromise map.now op.now out.old out.new (word_in result) }
{
    let m = reading::read_map(map)?;
    let o = opimage::read_op(op)?;
    answers::give_map(m.apply(o), out)
}

pub fn merge(map: &[u8], other: &[u8], out: &mut [u8]) -> u64
    ensures { MergePromise map.now other.now out.old out.new result }
{
    answers::told(give_merged(map, other, out))
}

fn give_merged(map: &[u8], other: &[u8], out: &mut [u8]) -> Result<usize, Refusal>
    ensures { MergePromise map.now other.now out.old out.new (word_in result) }
{
    let m = reading::read_map(map)?;
    let o = reading::read_map(other)?;
    answers::give_map(m.merge(o), out)
}

pub fn reset_remove(map: &[u8], clock: &[u8], out: &mut [u8]) -> u64
    ensures { ResetRemovePromise map.now clock.now out.old out.new result }
{
    answers::told(give_reset(map, clock, out))
}

fn give_reset(map: &[u8], clock: &[u8], out: &mut [u8]) -> Result<usize, Refusal>
    ensures { ResetRemovePromise map.now clock.now out.old out.new (word_in result) }
{
    let m = reading::read_map(map)?;
    let by = clockimage::read_clock(clock)?;
    answers::give_map(m.reset_remove(by), out)
}
