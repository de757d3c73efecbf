// The floor of some peers' clocks: one peer after the other, by value.
#![tactic(auto)]

ghost use Rattle.std.specs.Prelude.{◌≡◌, min};
ghost use Rattle.clock.specs.Dots.{dots_of, clock_of};
ghost use Rattle.flooring.specs.Steps.{lowered_by, begun_of, next_of};

use clock::{Clock, Dot};
use refusals::Refusal;

// The most peers in a list.
pub const PEERS: usize = 64;

// What a walk over some peers has in hand: its word, how many of them it reads, whether it has read one, and the floor of those.
#[derive(Clone, Copy)]
pub struct Floored {
    pub word: u64,
    pub many: usize,
    pub any: bool,
    pub clock: Clock,
}

// The smaller of two counters: 0, which is not reported, where a peer has not the actor.
fn smaller(counter: u64, other: u64) -> u64
    ensures { result ≡ min counter other }
{
    counter.min(other)
}

// The smaller counter of each actor, zero left out.
fn lower(clock: Clock, peer: Clock) -> Clock
    ensures { result ≡ clock_of (lowered_by (dots_of peer) (dots_of clock)) }
{
    let mut out = Clock::new();
    for d in clock.as_slice() {
        let seen = peer.get(d.actor);
        let least = smaller(d.counter, seen);
        if 0 < least {
            let k = out.len;
            out.dots[k] = Dot {
                actor: d.actor,
                counter: least,
            };
            out.len = k + 1;
        }
    }
    out
}

// Before the first peer of so many: where they are too many, none is read.
pub fn begin(count: usize) -> Floored
    ensures { result ≡ begun_of count }
{
    let none = Floored {
        word: 0,
        many: count,
        any: false,
        clock: Clock::new(),
    };
    if PEERS < count {
        return Floored {
            word: answers::told(Err(Refusal::TooManyPeers)),
            many: 0,
            ..none
        };
    }
    none
}

// One peer more: the first bad one decides.
pub fn next(f: Floored, peer: Clock) -> Floored
    ensures { result ≡ next_of f peer }
{
    if f.word != 0 {
        return f;
    }
    let number = advance::lent_number(peer);
    if number != 0 {
        return Floored {
            word: answers::word(number),
            ..f
        };
    }
    let clock = if f.any {
        lower(f.clock, peer)
    } else {
        lower(peer, peer)
    };
    Floored {
        any: true,
        clock,
        ..f
    }
}
