// Entries of a sketch: one with no value yet, a value more, and how many there are.
ghost use Rattle.std.specs.Prelude.{◌≡◌, List, [], ◌∷◌, ◌++◌, ℕ, ◌+◌, ◌*◌, ◌≤◌, ◌<◌, length};
ghost use Rattle.listlaws.specs.Sift.{those};
ghost use Rattle.clock.specs.declared.Dot.{Dot};
ghost use Rattle.limits.specs.Limits.{dot_limit, value_limit};
ghost use Rattle.clock.specs.Dots.{clock_of};
ghost use Rattle.register.specs.declared.Value.{Value};
ghost use Rattle.register.specs.Values.{alive};
ghost use Rattle.sketch.specs.Drawn.{image_named, value_from, Placed, Draws, sources_of};

use crate::{Flat, Sketched, Source};
use clock::Clock;
use limits::{DOTS, VALUES};

impl Sketched {
    // An entry with no value yet.
    pub fn new(key: u32, clock: Clock) -> Sketched
        ensures { (result.len ≡ 0) × ((s t : List ℕ) (d : List Dot) → clock ≡ clock_of d → Draws s t key d [] result) }
    {
        let none = Source {
            second: false,
            value: 0,
            from: 0,
            to: 0,
            marks: [false; DOTS],
        };
        let own = Flat::of(clock);
        Sketched {
            key,
            own,
            sources: [none; VALUES],
            len: 0,
        }
    }

    // One value more, where a dot of it is left.
    pub fn add(self, x: Source) -> Sketched
        requires { (self.len < 4 * value_limit) × ((x.from ≤ x.to) × (x.to ≤ x.from + dot_limit)) }
        ensures { (result.len ≤ self.len + 1) × ((s t : List ℕ) (key : ℕ) (d : List Dot) (l : List Value) → Draws s t key d l self
            → Placed (image_named s t x) x
            → Draws s t key d (l ++ those alive (value_from s t x ∷ [])) result) }
    {
        let marks = x.marks;
        let many = (x.to - x.from) as usize;
        if !marks::some_marks(marks, many) {
            return self;
        }
        let mut out = self;
        let n = out.len;
        out.len = n + 1;
        if n < VALUES {
            out.sources[n] = x;
            return out;
        }
        out
    }

    pub fn size(self) -> usize
        ensures { (result ≡ length (sources_of self)) × (result ≤ value_limit) }
    {
        self.len.min(VALUES)
    }

    // The sources in use.
    pub fn as_slice(&self) -> &[Source]
        ensures { result.now ≡ sources_of self.now }
    {
        &self.sources[..self.len.min(VALUES)]
    }
}
