// The guard that is asked before an update is applied, on a map's clock.
#![tactic(auto)]

ghost use Rattle.std.specs.Prelude.{◌≡◌, ◌<◌};
ghost use Rattle.clock.specs.Dots.{dots_of};
ghost use Rattle.readiness.specs.Ready.{needed, first_lacking, ready_under, ready_at};

use clock::{Clock, Dot};
use entries::Update;
use map::Op;

// What the guard says: the operation may be applied, its update was not made by `update`, it was seen, or it must be held until an actor's
// counter has come.
#[derive(Clone, Copy)]
pub enum Readiness {
    Next,
    Foreign,
    Seen,
    Hold(u16, u64),
}

// The counter of a dot's actor that must be seen before an update with this own dot.
fn needed(own: Dot, d: Dot) -> u64
    requires { 0 < own.counter }
    ensures { result ≡ needed own d }
{
    if d.actor == own.actor {
        own.counter - 1
    } else {
        d.counter
    }
}

// The first actor of a put clock whose needed counter was not seen.
fn first_lacking(seen: Clock, own: Dot, put: Clock) -> Readiness
    requires { 0 < own.counter }
    ensures { result ≡ first_lacking (dots_of seen) own (dots_of put) }
{
    for d in put.as_slice() {
        let s = seen.get(d.actor);
        let needs = needed(own, *d);
        if s < needs {
            return Readiness::Hold(d.actor, s + 1);
        }
    }
    Readiness::Next
}

// An update held against a map clock.
fn ready_under(seen: Clock, u: Update) -> Readiness
    ensures { result ≡ ready_under (dots_of seen) u }
{
    let own = u.dot;
    let put = u.put.clock;
    if put.get(own.actor) != own.counter {
        return Readiness::Foreign;
    }
    if own.counter <= seen.get(own.actor) {
        return Readiness::Seen;
    }
    first_lacking(seen, own, put)
}

// An operation held against a map clock: a removal may be applied at any time.
pub fn ready(seen: Clock, op: Op) -> Readiness
    ensures { result ≡ ready_at (dots_of seen) op }
{
    if !op.up {
        return Readiness::Next;
    }
    ready_under(seen, op.update)
}
