// The limits of a draft, and its waiting removals written.
ghost use Rattle.std.specs.Prelude.{◌≡◌, List, ◌+◌, ◌*◌, ◌≤◌, length};
ghost use Rattle.listlaws.specs.First.{some};
ghost use Rattle.entries.specs.declared.Entry.{Entry};
ghost use Rattle.removals.specs.declared.Removal.{Removal};
ghost use Rattle.limits.specs.Limits.{waiting_limit, key_limit};
ghost use Rattle.entries.specs.Steps.{overfull};
ghost use Rattle.records.specs.Records.{bytes_of};
ghost use Rattle.records.specs.Writing.{Wrote};
ghost use Rattle.drafting.specs.Drafted.{waiting_records, waiting_number, limit_number, Planned};

use limits::ENTRIES;
use planned::Plan;
use walks::Span;

// Which limit a draft breaks, and where it breaks none, how many records its waiting removals have.
#[derive(Clone, Copy)]
pub struct Weighed {
    pub number: u8,
    pub records: usize,
}

fn refused(number: u8) -> Weighed
    ensures { (result.number ≡ number) × (result.records ≡ 0) }
{
    Weighed { number, records: 0 }
}

// The number of a draft of so many entries, of which one may have too many values: 5 to 8.
pub fn weigh(
    count: usize,
    wide: bool,
    plan: Plan,
    s: &[u8],
    ours: Span,
    t: &[u8],
    theirs: Span,
) -> Weighed
    requires { (w : List Removal) × Planned s.now t.now ours theirs plan w }
    ensures { ((l : List Entry) (w : List Removal) → count ≡ length l → wide ≡ some overfull l
        → Planned s.now t.now ours theirs plan w
        → (result.number ≡ limit_number l w) × (result.number ≡ 0 → result.records ≡ length (waiting_records w)))
        × (result.records ≤ 2 * (waiting_limit * key_limit)) }
{
    if ENTRIES < count {
        return refused(5);
    }
    if wide {
        return refused(6);
    }
    if plan.over {
        return refused(7);
    }
    let first = plan.ours;
    let second = plan.theirs;
    let keys = queued::rows::count_keys(
        s,
        ours.from,
        ours.to,
        first,
        t,
        theirs.from,
        theirs.to,
        second,
    );
    if keys.over {
        return refused(8);
    }
    let records = planned::count_dots(plan) + keys.total;
    Weighed { number: 0, records }
}

// Writes the dots, then the keys of a plan's waiting removals.
pub fn write_waiting(
    plan: Plan,
    s: &[u8],
    ours: Span,
    t: &[u8],
    theirs: Span,
    out: &mut [u8],
    at: usize,
) -> usize
    requires { (w : List Removal) × Planned s.now t.now ours theirs plan w
        × ((waiting_number w ≡ 0) × (at + length (waiting_records w) * 16 ≤ length out.old)) }
    ensures { (w : List Removal) → Planned s.now t.now ours theirs plan w → waiting_number w ≡ 0
        → at + length (waiting_records w) * 16 ≤ length out.old
        → Wrote at (bytes_of (waiting_records w)) out.old out.new result }
{
    let mine = plan.ours;
    let yours = plan.theirs;
    let next = planned::write_clocks(out, at, s, t, plan);
    queued::rows::write_keys(
        out,
        next,
        s,
        ours.from,
        ours.to,
        mine,
        t,
        theirs.from,
        theirs.to,
        yours,
    )
}
