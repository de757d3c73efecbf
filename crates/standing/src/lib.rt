// Which values of a register stand, by the runs of their dots where they lie.
#![tactic(auto)]

ghost use Rattle.std.specs.Prelude.{◌≡◌, true, false, MatchOption, List, [], ◌∷◌, ◌++◌};
ghost use Rattle.listlaws.specs.Sift.{those};
ghost use Rattle.clock.specs.Dots.{dots_of};
ghost use Rattle.clock.specs.Lawful.{Lawful};
ghost use Rattle.register.specs.declared.Value.{Value};
ghost use Rattle.register.specs.Values.{outdone, standing, remaining, merge_values};
ghost use Rattle.runs.specs.Run.{run_dots};
ghost use Rattle.marks.specs.Marks.{picked};
ghost use Rattle.comparing.specs.Registers.{RunsOf};

use clock::Order;
use limits::VALUES;

// Which of our values stand in a merge, and which of theirs.
#[derive(Clone, Copy)]
pub struct Standing {
    pub ours: [bool; VALUES],
    pub theirs: [bool; VALUES],
}

// Which values remain beside a put, and whether it yields to one of these.
#[derive(Clone, Copy)]
pub struct Outdone {
    pub remain: [bool; VALUES],
    pub yields: bool,
}

// Which of a register's marked values do not yield to the value of a run; none of this where it yields to one of them.
fn against(
    run: &[u8],
    s: &[u8],
    starts: [usize; 5],
    n: usize,
    before: [bool; VALUES],
) -> Option<[bool; VALUES]>
    requires { Lawful (run_dots run.now) × ((l : List Value) × RunsOf s.now starts n l) }
    ensures { (v : Value) (l : List Value) → run_dots run.now ≡ dots_of v.clock → RunsOf s.now starts n l
        → MatchOption result (outdone false l v ≡ true)
        (λ left. (outdone false l v ≡ false) × (picked left l ≡ those (standing true (v ∷ [])) (picked before l))) }
{
    let mut left = before;
    for j in 0..n {
        match comparing::compare_runs(run, comparing::value_run(s, starts, j)) {
            Order::Less => return None,
            Order::Equal | Order::Greater => left[j] = false,
            Order::Concurrent => {}
        }
    }
    Some(left)
}

// Which values stand in a merge of two registers, each pair of clocks compared once.
pub fn stands(s: &[u8], xs: [usize; 5], n: usize, t: &[u8], ys: [usize; 5], m: usize) -> Standing
    requires { ((l : List Value) × RunsOf s.now xs n l) × ((l : List Value) × RunsOf t.now ys m l) }
    ensures { (ours theirs : List Value) → RunsOf s.now xs n ours → RunsOf t.now ys m theirs
        → picked result.ours ours ++ picked result.theirs theirs ≡ merge_values ours theirs }
{
    let mut ours = [true; VALUES];
    let mut theirs = [true; VALUES];
    for i in 0..n {
        match against(comparing::value_run(s, xs, i), t, ys, m, theirs) {
            Some(left) => theirs = left,
            None => ours[i] = false,
        }
    }
    Standing { ours, theirs }
}

// Which values remain beside a put, and whether it yields to one of these.
pub fn put_stands(s: &[u8], starts: [usize; 5], n: usize, put: &[u8]) -> Outdone
    requires { ((l : List Value) × RunsOf s.now starts n l) × Lawful (run_dots put.now) }
    ensures { (l : List Value) (v : Value) → RunsOf s.now starts n l → run_dots put.now ≡ dots_of v.clock
        → (picked result.remain l ≡ remaining l v) × (result.yields ≡ outdone false (remaining l v) v) }
{
    let mut remain = [true; VALUES];
    let mut yields = false;
    for i in 0..n {
        match comparing::compare_runs(comparing::value_run(s, starts, i), put) {
            Order::Less | Order::Equal => remain[i] = false,
            Order::Greater => yields = true,
            Order::Concurrent => {}
        }
    }
    Outdone { remain, yields }
}
