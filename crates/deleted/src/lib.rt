// How many dots a removal and a reset delete from entry clocks, on images where they lie.
#![tactic(auto)]

ghost use Rattle.std.specs.Prelude.{◌≡◌, List, ℕ, ◌+◌, ◌≤◌};
ghost use Rattle.clock.specs.declared.Dot.{Dot};
ghost use Rattle.clock.specs.Dots.{dots_of};
ghost use Rattle.clock.specs.Lawful.{Lawful};
ghost use Rattle.entries.specs.declared.Entry.{Entry};
ghost use Rattle.removals.specs.declared.Removal.{Removal};
ghost use Rattle.map.specs.Model.{map_as};
ghost use Rattle.map.specs.Judging.{judged};
ghost use Rattle.map.specs.Removing.{remove};
ghost use Rattle.map.specs.Resetting.{reset};
ghost use Rattle.map.specs.Valid.{RemovalWithin};
ghost use Rattle.records.specs.Records.{records_of};
ghost use Rattle.opimage.specs.OpImage.{removal_records};
ghost use Rattle.maprecords.specs.Related.{read_map};
ghost use Rattle.answers.specs.Answer.{Counted};
ghost use Rattle.promises.specs.Calls.{map_answer};
ghost use Rattle.promises.specs.Deleted.{dots_among, entry_dots};
ghost use Rattle.promises.specs.Promises.{ApplyDeletedPromise, ResetRemoveDeletedPromise};
ghost use Rattle.layout.specs.Whole.{LaidOut};
ghost use Rattle.sketch.specs.declared.Sketched.{Sketched};
ghost use Rattle.drafting.specs.Drafted.{Drafted};

use clock::Clock;
use layout::Laid;
use planned::Plan;
use removals::Removal;
use sketch::Sums;
use walks::Span;

// How many dots a draft has less than there were, where it breaks no limit and has so much room.
fn fewer(
    clock: Clock,
    sums: Sums,
    plan: Plan,
    s: &[u8],
    ours: Span,
    t: &[u8],
    theirs: Span,
    room: usize,
    had: usize,
) -> u64
    requires { (items : List Sketched) × ((c : List Dot) × ((l : List Entry) × ((w : List Removal)
        × (Drafted s.now t.now ours theirs clock (record { items = items; sums = sums }) plan c l w × (dots_among l ≤ had))))) }
    ensures { (items : List Sketched) (c : List Dot) (l : List Entry) (w : List Removal) (n : ℕ)
        → Drafted s.now t.now ours theirs clock (record { items = items; sums = sums }) plan c l w → dots_among l + n ≡ had
        → Counted (map_answer 0 0 (judged (map_as c l w))) room n result }
{
    let waits = drafting::waiting::weigh(sums.count, sums.wide, plan, s, ours, t, theirs);
    if waits.number != 0 {
        return 0;
    }
    let records = clock.size() + (sums.dots + sums.others + waits.records);
    if room / 16 < records {
        return 0;
    }
    (had - sums.dots) as u64
}

// Of a map that was read, with a removal.
fn removal_deleted(map: &[u8], a: Laid, r: Removal, op: &[u8], room: usize) -> u64
    requires { (LaidOut map.now (read_map map.now).map a × ((read_map map.now).number ≡ 0))
        × (RemovalWithin r × (removal_records r ≡ records_of op.now)) }
    ensures { (n : ℕ) → entry_dots (remove (read_map map.now).map r) + n ≡ entry_dots (read_map map.now).map
        → Counted (map_answer 0 0 (judged (remove (read_map map.now).map r))) room n result }
{
    let clock = a.clock;
    let l = a.layout;
    let under = r.clock;
    let dots = under.size();
    let waiting = drafting::held::removal_waits(map, l, op, dots);
    let q = queued::queue_of(map, l, a.waits);
    let p = drafting::held::held_queue(op, dots, waiting);
    let theirs = drafting::held::held_keys(op, dots, waiting);
    let none = Clock::new();
    let plan = planned::join_plan(map, q, op, p, none);
    let sk = cutting::draw_removed(map, l, r);
    let ours = Span {
        from: l.sixth,
        to: l.end,
    };
    let had = l.third - l.second;
    let sums = sk.sums;
    fewer(clock, sums, plan, map, ours, op, theirs, room, had)
}

pub fn apply_deleted(map: &[u8], op: &[u8], room: usize) -> u64
    ensures { ApplyDeletedPromise map.now op.now room result }
{
    let a = layout::lay_out(map);
    if a.number != 0 {
        return 0;
    }
    let Ok(change) = opimage::read_op(op) else {
        return 0;
    };
    if change.up {
        return 0;
    }
    removal_deleted(map, a, change.removal, op, room)
}

// Of a map that was read, reset by a clock.
fn reset_deleted(map: &[u8], a: Laid, by: Clock, room: usize) -> u64
    requires { (LaidOut map.now (read_map map.now).map a × ((read_map map.now).number ≡ 0)) × Lawful (dots_of by) }
    ensures { (n : ℕ) → entry_dots (reset (read_map map.now).map (dots_of by)) + n ≡ entry_dots (read_map map.now).map
        → Counted (map_answer 0 0 (judged (reset (read_map map.now).map (dots_of by)))) room n result }
{
    let seen = a.clock;
    let l = a.layout;
    let clock = seen.cut(by).clock;
    let q = queued::queue_of(map, l, a.waits);
    let plan = planned::reset_plan(map, q, by);
    let sk = cutting::draw_reset(map, l, by);
    let ours = Span {
        from: l.sixth,
        to: l.end,
    };
    let theirs = Span { from: 0, to: 0 };
    let had = l.third - l.second;
    let sums = sk.sums;
    fewer(clock, sums, plan, map, ours, map, theirs, room, had)
}

pub fn reset_remove_deleted(map: &[u8], clock: &[u8], room: usize) -> u64
    ensures { ResetRemoveDeletedPromise map.now clock.now room result }
{
    let a = layout::lay_out(map);
    if a.number != 0 {
        return 0;
    }
    let Ok(by) = clockimage::read_clock(clock) else {
        return 0;
    };
    reset_deleted(map, a, by, room)
}
