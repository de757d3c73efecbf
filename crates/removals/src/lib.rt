// Sets of keys, and removals of keys under a clock, which wait until a map's clock covers theirs; on arrays with a count, by value.
#![tactic(auto)]

mod by_clock;
mod key_sets;

ghost use Rattle.std.specs.Prelude.{◌≡◌};
ghost use Rattle.clock.specs.Dots.{dots_of};
ghost use Rattle.removals.specs.Waits.{clock_before};

use clock::Clock;
use limits::{KEYS, WAITING};

#[derive(Clone, Copy)]
pub struct Keys {
    pub items: [u32; KEYS],
    pub len: usize,
}

#[derive(Clone, Copy)]
pub struct Removal {
    pub clock: Clock,
    pub keys: Keys,
}

// Removals ascending by clock.
#[derive(Clone, Copy)]
pub struct Waiting {
    pub items: [Removal; WAITING],
    pub len: usize,
}

// Two lists of waiting removals as one: how many, whether one has too many keys, and the removals where both are within the limits.
#[derive(Clone, Copy)]
pub struct JoinedWaiting {
    pub count: usize,
    pub long: bool,
    pub waiting: Waiting,
}

// What a reset leaves of waiting removals, or that one has too many keys: then `over` is set, and none is there.
#[derive(Clone, Copy)]
pub struct ResetWaiting {
    pub over: bool,
    pub waiting: Waiting,
}

// Whether a clock stands before another: dots pair by pair, a prefix first.
pub fn clock_before(a: Clock, b: Clock) -> bool
    ensures { result ≡ clock_before (dots_of a) (dots_of b) }
{
    let xs = a.as_slice();
    let ys = b.as_slice();
    for (x, y) in xs.iter().zip(ys) {
        if x.actor != y.actor {
            return x.actor < y.actor;
        }
        if x.counter != y.counter {
            return x.counter < y.counter;
        }
    }
    xs.len() < ys.len()
}
