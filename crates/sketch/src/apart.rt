// A clock with its counters and actors apart, and back.
ghost use Rattle.std.specs.Prelude.{◌≡◌, ◌≤◌, length};
ghost use Rattle.limits.specs.Limits.{dot_limit};
ghost use Rattle.clock.specs.Dots.{dots_of};
ghost use Rattle.sketch.specs.Drawn.{clock_apart};

use crate::Flat;
use clock::{Clock, Dot};
use limits::DOTS;

impl Flat {
    pub fn of(c: Clock) -> Flat
        ensures { clock_apart result ≡ c }
    {
        let mut counters: [u64; DOTS] = [0; DOTS];
        let mut actors: [u16; DOTS] = [0; DOTS];
        for (i, d) in c.dots.iter().enumerate() {
            counters[i] = d.counter;
            actors[i] = d.actor;
        }
        Flat {
            counters,
            actors,
            len: c.len,
        }
    }

    pub fn clock(self) -> Clock
        ensures { result ≡ clock_apart self }
    {
        let none = Dot {
            actor: 0,
            counter: 0,
        };
        let mut dots: [Dot; DOTS] = [none; DOTS];
        for i in 0..DOTS {
            dots[i] = Dot {
                actor: self.actors[i],
                counter: self.counters[i],
            };
        }
        Clock {
            dots,
            len: self.len,
        }
    }

    pub fn size(self) -> usize
        ensures { (result ≡ length (dots_of (clock_apart self))) × (result ≤ dot_limit) }
    {
        self.len.min(DOTS)
    }
}
