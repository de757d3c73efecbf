// The three calls that change a map, on images where they lie.
#![tactic(auto)]

ghost use Rattle.std.specs.Prelude.{◌≡◌, ◌≤◌, length};
ghost use Rattle.clock.specs.Dots.{dots_of};
ghost use Rattle.clock.specs.Lawful.{Lawful};
ghost use Rattle.map.specs.Judging.{judged};
ghost use Rattle.map.specs.Merging.{merge};
ghost use Rattle.map.specs.Removing.{remove};
ghost use Rattle.map.specs.Resetting.{reset};
ghost use Rattle.map.specs.Updating.{update};
ghost use Rattle.map.specs.Valid.{RemovalWithin, UpdateWithin};
ghost use Rattle.records.specs.Records.{records_of};
ghost use Rattle.opimage.specs.OpImage.{removal_records, update_records};
ghost use Rattle.mapimage.specs.MapImage.{map_longest};
ghost use Rattle.maprecords.specs.Related.{read_map};
ghost use Rattle.answers.specs.Answer.{Answered, word_in};
ghost use Rattle.promises.specs.Calls.{map_answer};
ghost use Rattle.promises.specs.Promises.{ApplyPromise, MergePromise, ResetRemovePromise};
ghost use Rattle.layout.specs.Whole.{LaidOut};

use clock::Clock;
use entries::Update;
use layout::Laid;
use queued::Queue;
use refusals::Refusal;
use removals::Removal;
use walks::Span;

// A map that was read, with a removal.
fn remove_by(map: &[u8], a: Laid, r: Removal, op: &[u8], out: &mut [u8]) -> u64
    requires { (LaidOut map.now (read_map map.now).map a × ((read_map map.now).number ≡ 0))
        × (RemovalWithin r × (removal_records r ≡ records_of op.now)) }
    ensures { Answered (map_answer 0 0 (judged (remove (read_map map.now).map r))) out.old out.new result }
{
    let clock = a.clock;
    let l = a.layout;
    let under = r.clock;
    let dots = under.size();
    let waiting = drafting::held::removal_waits(map, l, op, dots);
    let q = queued::queue_of(map, l, a.waits);
    let p = drafting::held::held_queue(op, dots, waiting);
    let theirs = drafting::held::held_keys(op, dots, waiting);
    let none = Clock::new();
    let plan = planned::join_plan(map, q, op, p, none);
    let sk = cutting::draw_removed(map, l, r);
    let ours = Span {
        from: l.sixth,
        to: l.end,
    };
    drafting::finish(clock, sk, plan, map, ours, op, theirs, out)
}

// A map as it was read.
fn same(map: &[u8], out: &mut [u8]) -> Result<usize, Refusal>
    requires { (read_map map.now).number ≡ 0 }
    ensures { Answered (map_answer 0 0 (record { number = 0; map = (read_map map.now).map })) out.old
        out.new (word_in result) }
{
    if out.len() < map.len() {
        return Err(Refusal::ShortBuffer);
    }
    Ok(runs::copy_run(map, out, 0))
}

// A map that was read, with an update.
fn update_by(map: &[u8], a: Laid, u: Update, op: &[u8], out: &mut [u8]) -> u64
    requires { (LaidOut map.now (read_map map.now).map a × ((read_map map.now).number ≡ 0))
        × ((UpdateWithin u × (update_records u ≡ records_of op.now)) × (length op.now ≤ map_longest)) }
    ensures { Answered (map_answer 0 0 (judged (update (read_map map.now).map u))) out.old out.new result }
{
    let d = u.dot;
    let seen = a.clock;
    if d.counter <= seen.get(d.actor) {
        return answers::told(same(map, out));
    }
    let grown = seen.add(d);
    if grown.over {
        return answers::told(Err(Refusal::TooManyDots));
    }
    let clock = grown.clock;
    let l = a.layout;
    let q = queued::queue_of(map, l, a.waits);
    let none = Queue::none();
    let plan = planned::join_plan(map, q, op, none, clock);
    let sk = updating::drawing::draw_updated(map, l, u, op, q);
    let ours = Span {
        from: l.sixth,
        to: l.end,
    };
    let theirs = Span { from: 0, to: 0 };
    drafting::finish(clock, sk, plan, map, ours, op, theirs, out)
}

pub fn apply(map: &[u8], op: &[u8], out: &mut [u8]) -> u64
    ensures { ApplyPromise map.now op.now out.old out.new result }
{
    let a = layout::lay_out(map);
    if a.number != 0 {
        return answers::word(a.number);
    }
    match opimage::read_op(op) {
        Ok(change) => {
            if change.up {
                update_by(map, a, change.update, op, out)
            } else {
                remove_by(map, a, change.removal, op, out)
            }
        }
        Err(refusal) => answers::told(Err(refusal)),
    }
}

// Two maps that were read, merged.
fn merge_with(map: &[u8], a: Laid, other: &[u8], b: Laid, out: &mut [u8]) -> u64
    requires { (LaidOut map.now (read_map map.now).map a × LaidOut other.now (read_map other.now).map b)
        × (((read_map map.now).number ≡ 0) × ((read_map other.now).number ≡ 0)) }
    ensures { Answered (map_answer 0 0 (judged (merge (read_map map.now).map (read_map other.now).map)))
        out.old out.new result }
{
    let mine = a.clock;
    let yours = b.clock;
    let joined = mine.join(yours);
    if joined.over {
        return answers::told(Err(Refusal::TooManyDots));
    }
    let clock = joined.clock;
    let l = a.layout;
    let m = b.layout;
    let q = queued::queue_of(map, l, a.waits);
    let p = queued::queue_of(other, m, b.waits);
    let plan = planned::join_plan(map, q, other, p, clock);
    let sk = merging::drawing::draw_merged(map, other, a, b, q, p);
    let ours = Span {
        from: l.sixth,
        to: l.end,
    };
    let theirs = Span {
        from: m.sixth,
        to: m.end,
    };
    drafting::finish(clock, sk, plan, map, ours, other, theirs, out)
}

pub fn merge(map: &[u8], other: &[u8], out: &mut [u8]) -> u64
    ensures { MergePromise map.now other.now out.old out.new result }
{
    let a = layout::lay_out(map);
    if a.number != 0 {
        return answers::word(a.number);
    }
    let b = layout::lay_out(other);
    if b.number != 0 {
        return answers::word(b.number);
    }
    merge_with(map, a, other, b, out)
}

// A map that was read, reset by a clock.
fn reset_by(map: &[u8], a: Laid, by: Clock, out: &mut [u8]) -> u64
    requires { (LaidOut map.now (read_map map.now).map a × ((read_map map.now).number ≡ 0)) × Lawful (dots_of by) }
    ensures { Answered (map_answer 0 0 (judged (reset (read_map map.now).map (dots_of by)))) out.old
        out.new result }
{
    let seen = a.clock;
    let l = a.layout;
    let clock = seen.cut(by).clock;
    let q = queued::queue_of(map, l, a.waits);
    let plan = planned::reset_plan(map, q, by);
    let sk = cutting::draw_reset(map, l, by);
    let ours = Span {
        from: l.sixth,
        to: l.end,
    };
    let theirs = Span { from: 0, to: 0 };
    drafting::finish(clock, sk, plan, map, ours, map, theirs, out)
}

pub fn reset_remove(map: &[u8], clock: &[u8], out: &mut [u8]) -> u64
    ensures { ResetRemovePromise map.now clock.now out.old out.new result }
{
    let a = layout::lay_out(map);
    if a.number != 0 {
        return answers::word(a.number);
    }
    match clockimage::read_clock(clock) {
        Ok(by) => reset_by(map, a, by, out),
        Err(refusal) => answers::told(Err(refusal)),
    }
}
