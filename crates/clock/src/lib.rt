// Dots and clocks: a counter for each actor, as a sorted array of dots with a count, by value.
#![tactic(auto)]

ghost use Rattle.std.specs.Prelude.{◌≡◌, true, List, [], ◌∷◌, ◌++◌, ◌≤◌, ◌<◌, length};
ghost use Rattle.clock.specs.declared.Dot.{Dot};
ghost use Rattle.listlaws.specs.Sift.{those};
ghost use Rattle.limits.specs.Limits.{dot_limit};
ghost use Rattle.clock.specs.Dots.{dots_of, clock_of, fitted, counter_in, is_empty, covers, outcome, order_of, cut_dots, cut_of, common_dots};
ghost use Rattle.clock.specs.Dots.{larger_dot, join_dots, add_dot};
ghost use Rattle.clock.specs.Walking.{stays_at, kept, is_lawful, same_actors};
ghost use Rattle.clock.specs.Lawful.{Lawful};

use limits::DOTS;

#[repr(C)]
#[derive(Clone, Copy)]
pub struct Dot {
    pub actor: u16,
    pub counter: u64,
}

#[repr(C)]
#[derive(Clone, Copy)]
pub struct Clock {
    pub dots: [Dot; DOTS],
    pub len: usize,
}

// How two clocks stand to each other.
#[derive(Clone, Copy)]
pub enum Order {
    Equal,
    Greater,
    Less,
    Concurrent,
}

// A clock that may have grown over the limit: then `over` is set, and the clock is empty.
#[derive(Clone, Copy)]
pub struct Joined {
    pub over: bool,
    pub clock: Clock,
}

// What a cut leaves of a clock, and how many dots it deleted.
#[derive(Clone, Copy)]
pub struct Cut {
    pub clock: Clock,
    pub deleted: usize,
}

// What two coverings say together.
pub fn outcome(over: bool, under: bool) -> Order
    ensures { result ≡ outcome over under }
{
    if over {
        if under { Order::Equal } else { Order::Greater }
    } else if under {
        Order::Less
    } else {
        Order::Concurrent
    }
}

impl Dot {
    // Whether a dot stays where its actor was seen at this counter: at the same one, if `same` is set, and else at a larger one.
    fn stays(self, seen: u64, same: bool) -> bool
        ensures { result ≡ stays_at same seen self.counter }
    {
        if same {
            seen == self.counter
        } else {
            seen < self.counter
        }
    }

    // Of two dots of one actor, the one with the larger counter.
    fn larger(self, other: Dot) -> Dot
        ensures { result ≡ larger_dot self other }
    {
        if self.counter < other.counter {
            other
        } else {
            self
        }
    }
}

impl Clock {
    pub fn new() -> Clock
        ensures { result ≡ clock_of [] }
    {
        let none = Dot {
            actor: 0,
            counter: 0,
        };
        Clock {
            dots: [none; DOTS],
            len: 0,
        }
    }

    pub fn size(self) -> usize
        ensures { (result ≡ length (dots_of self)) × (result ≤ dot_limit) }
    {
        self.len.min(DOTS)
    }

    pub fn is_empty(self) -> bool
        ensures { result ≡ is_empty (dots_of self) }
    {
        self.size() == 0
    }

    // The dots in use.
    pub fn as_slice(&self) -> &[Dot]
        ensures { result.now ≡ dots_of self.now }
    {
        &self.dots[..self.size()]
    }

    // The counter of an actor.
    pub fn get(self, actor: u16) -> u64
        ensures { result ≡ counter_in (dots_of self) actor }
    {
        for d in self.as_slice() {
            if d.actor == actor {
                return d.counter;
            }
        }
        0
    }

    // The clock with a dot behind its last.
    pub fn push(self, d: Dot) -> Clock
        requires { self.len < dot_limit }
        ensures { (l : List Dot) → self ≡ clock_of l → result ≡ clock_of (l ++ (d ∷ [])) }
    {
        let mut out = self;
        out.store(d);
        out
    }

    // The same in place.
    fn store(&mut self, d: Dot)
        requires { self.now.len < dot_limit }
        ensures { (l : List Dot) → self.old ≡ clock_of l → self.new ≡ clock_of (l ++ (d ∷ [])) }
    {
        self.dots[self.len] = d;
        self.len += 1;
    }

    // Whether it is a clock in order: actors strictly ascending, counters from 1.
    fn is_lawful(self) -> bool
        ensures { result ≡ is_lawful (dots_of self) }
    {
        let mut low: u32 = 0;
        for d in self.as_slice() {
            let actor = d.actor as u32;
            if !((low <= actor) & (0 < d.counter)) {
                return false;
            }
            low = actor + 1;
        }
        true
    }

    // Without the dots that `by` has seen: the Rust's `reset_remove` and `clone_without`. The sizes say how many those were.
    pub fn cut(self, by: Clock) -> Cut
        ensures { result ≡ cut_of (dots_of by) (dots_of self) }
    {
        let left = self.sift(by, false);
        let deleted = self.size() - left.len;
        Cut {
            clock: left,
            deleted: deleted,
        }
    }

    // The dots that both have, at equal counters: the Rust's `intersection`.
    pub fn common(self, other: Clock) -> Clock
        ensures { result ≡ clock_of (common_dots (dots_of self) (dots_of other)) }
    {
        self.sift(other, true)
    }

    // The dots that `by` has at the same counter, where `same` is set, and else those beyond it.
    fn sift(self, by: Clock, same: bool) -> Clock
        ensures { result ≡ clock_of (those (kept same (dots_of by)) (dots_of self)) }
    {
        if self.is_lawful() && by.is_lawful() {
            return self.sift_beside(by, same);
        }
        self.sift_by_look(by, same)
    }

    // The same for clocks in order, by one walk over both.
    fn sift_beside(self, by: Clock, same: bool) -> Clock
        requires { Lawful (dots_of self) × Lawful (dots_of by) }
        ensures { result ≡ clock_of (those (kept same (dots_of by)) (dots_of self)) }
    {
        let xs = self.as_slice();
        let ys = by.as_slice();
        let mut out = Clock::new();
        let mut i: usize = 0;
        let mut j: usize = 0;
        // A `while`: each of the two is walked at its own pace.
        while i < xs.len() {
            let d = xs[i];
            let mut seen: u64 = 0;
            if j < ys.len() {
                let e = ys[j];
                if e.actor < d.actor {
                    j += 1;
                    continue;
                }
                if e.actor == d.actor {
                    seen = e.counter;
                    j += 1;
                }
            }
            i += 1;
            if d.stays(seen, same) {
                out.store(d);
            }
        }
        out
    }

    // The same for any two, each dot looked up.
    fn sift_by_look(self, by: Clock, same: bool) -> Clock
        ensures { result ≡ clock_of (those (kept same (dots_of by)) (dots_of self)) }
    {
        let mut out = Clock::new();
        for d in self.as_slice() {
            let seen = by.get(d.actor);
            if d.stays(seen, same) {
                out.store(*d);
            }
        }
        out
    }

    // Whether every counter of `other` is at most this clock's.
    pub fn covers(self, other: Clock) -> bool
        ensures { result ≡ covers (dots_of self) (dots_of other) }
    {
        let o = self.compare(other);
        match o {
            Order::Equal => true,
            Order::Greater => true,
            Order::Less => false,
            Order::Concurrent => false,
        }
    }

    // The Rust's `partial_cmp`.
    pub fn compare(self, other: Clock) -> Order
        ensures { result ≡ order_of (dots_of self) (dots_of other) }
    {
        if self.same_actors(other) {
            return self.compare_level(other);
        }
        if self.is_lawful() && other.is_lawful() {
            return self.compare_beside(other);
        }
        let over = self.covers_by_look(other);
        let under = other.covers_by_look(self);
        outcome(over, under)
    }

    // Whether both have the same actors, strictly ascending.
    fn same_actors(self, other: Clock) -> bool
        ensures { result ≡ same_actors (dots_of self) (dots_of other) }
    {
        let xs = self.as_slice();
        let ys = other.as_slice();
        if xs.len() != ys.len() {
            return false;
        }
        let mut low: u32 = 0;
        for (x, y) in xs.iter().zip(ys) {
            let actor = x.actor as u32;
            if !((low <= actor) & (x.actor == y.actor)) {
                return false;
            }
            low = actor + 1;
        }
        true
    }

    // The comparison of clocks with the same actors: place by place.
    fn compare_level(self, other: Clock) -> Order
        requires { same_actors (dots_of self) (dots_of other) ≡ true }
        ensures { result ≡ order_of (dots_of self) (dots_of other) }
    {
        let mut over = true;
        let mut under = true;
        for (x, y) in self.as_slice().iter().zip(other.as_slice()) {
            if !(over | under) {
                return Order::Concurrent;
            }
            over = over & (y.counter <= x.counter);
            under = under & (x.counter <= y.counter);
        }
        outcome(over, under)
    }

    // The same for clocks in order, by one walk over both: a dot that one of them has alone settles one side.
    fn compare_beside(self, other: Clock) -> Order
        requires { Lawful (dots_of self) × Lawful (dots_of other) }
        ensures { result ≡ order_of (dots_of self) (dots_of other) }
    {
        let xs = self.as_slice();
        let ys = other.as_slice();
        let mut over = true;
        let mut under = true;
        let mut i: usize = 0;
        let mut j: usize = 0;
        // A `while`: each of the two is walked at its own pace.
        while i < xs.len() && j < ys.len() {
            if !(over | under) {
                return Order::Concurrent;
            }
            let x = xs[i];
            let y = ys[j];
            if x.actor < y.actor {
                under = false;
                i += 1;
            } else if y.actor < x.actor {
                over = false;
                j += 1;
            } else {
                over = over & (y.counter <= x.counter);
                under = under & (x.counter <= y.counter);
                i += 1;
                j += 1;
            }
        }
        outcome(over & (ys.len() <= j), under & (xs.len() <= i))
    }

    // Whether it covers any other, each dot looked up.
    fn covers_by_look(self, other: Clock) -> bool
        ensures { result ≡ covers (dots_of self) (dots_of other) }
    {
        for d in other.as_slice() {
            if self.get(d.actor) < d.counter {
                return false;
            }
        }
        true
    }

    // The larger counter of each actor: the Rust's `merge`.
    pub fn join(self, other: Clock) -> Joined
        ensures { result ≡ fitted (join_dots (dots_of self) (dots_of other)) }
    {
        let xs = self.as_slice();
        let ys = other.as_slice();
        let mut out = Joined::new();
        let mut i: usize = 0;
        let mut j: usize = 0;
        // A `while`: each of the two is walked at its own pace.
        while i < xs.len() && j < ys.len() {
            let x = xs[i];
            let y = ys[j];
            if x.actor < y.actor {
                out = out.push(x);
                i += 1;
            } else if y.actor < x.actor {
                out = out.push(y);
                j += 1;
            } else {
                out = out.push(x.larger(y));
                i += 1;
                j += 1;
            }
        }
        out.trail(&xs[i..]).trail(&ys[j..])
    }

    // The clock with a dot, where its counter is larger: the Rust's `apply`.
    pub fn add(self, d: Dot) -> Joined
        ensures { result ≡ fitted (add_dot (dots_of self) d) }
    {
        let none = Clock::new();
        if self.get(d.actor) < d.counter {
            let news = none.push(d);
            return self.join(news);
        }
        self.join(none)
    }
}

impl Joined {
    // A clock joined to what was joined before.
    pub fn join(self, other: Clock) -> Joined
        ensures { (l : List Dot) → self ≡ fitted l → result ≡ fitted (join_dots l (dots_of other)) }
    {
        if self.over {
            return self;
        }
        self.clock.join(other)
    }

    pub fn new() -> Joined
        ensures { result ≡ fitted [] }
    {
        let none = Clock::new();
        Joined {
            over: false,
            clock: none,
        }
    }

    // One dot more behind the last, or over the limit.
    fn push(self, d: Dot) -> Joined
        ensures { (l : List Dot) → self ≡ fitted l → result ≡ fitted (l ++ (d ∷ [])) }
    {
        if self.over {
            return self;
        }
        let c = self.clock;
        if c.len < DOTS {
            let more = c.push(d);
            return Joined {
                over: false,
                clock: more,
            };
        }
        let none = Clock::new();
        Joined {
            over: true,
            clock: none,
        }
    }

    // More dots behind the last.
    fn trail(self, rest: &[Dot]) -> Joined
        ensures { (l : List Dot) → self ≡ fitted l → result ≡ fitted (l ++ rest.now) }
    {
        let mut out = self;
        for d in rest {
            out = out.push(*d);
        }
        out
    }
}
