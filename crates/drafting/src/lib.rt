// A result before it is written: judged, then written.
#![tactic(auto)]

ghost use Rattle.std.specs.Prelude.{List};
ghost use Rattle.clock.specs.declared.Dot.{Dot};
ghost use Rattle.entries.specs.declared.Entry.{Entry};
ghost use Rattle.removals.specs.declared.Removal.{Removal};
ghost use Rattle.map.specs.Model.{map_as};
ghost use Rattle.map.specs.Judging.{judged};
ghost use Rattle.answers.specs.Answer.{Answered};
ghost use Rattle.promises.specs.Calls.{map_answer};
ghost use Rattle.drafting.specs.Drafted.{Drafted};

use clock::Clock;
use planned::Plan;
use sketch::Sketch;
use walks::Span;

pub mod held;
pub mod waiting;

// Answers a draft, or the number of what is wrong with it; nothing is written before that is known.
pub fn finish(
    clock: Clock,
    sk: Sketch,
    plan: Plan,
    s: &[u8],
    ours: Span,
    t: &[u8],
    theirs: Span,
    out: &mut [u8],
) -> u64
    requires { (c : List Dot) × ((l : List Entry) × ((w : List Removal) × Drafted s.now t.now ours theirs clock sk plan c l w)) }
    ensures { (c : List Dot) (l : List Entry) (w : List Removal) → Drafted s.now t.now ours theirs clock sk plan c l w
        → Answered (map_answer 0 0 (judged (map_as c l w))) out.old out.new result }
{
    let sums = sk.sums;
    let waits = waiting::weigh(sums.count, sums.wide, plan, s, ours, t, theirs);
    if waits.number != 0 {
        return answers::word(waits.number);
    }
    let records = clock.size() + (sums.dots + sums.others + waits.records);
    if out.len() / 16 < records {
        return answers::word(10);
    }
    let rest = sketch::writing::write_sketch(s, t, clock, sk, out);
    waiting::write_waiting(plan, s, ours, t, theirs, out, rest) as u64
}
