// Removals, and those that wait, ascending by clock.
ghost use Rattle.std.specs.Prelude.{◌≡◌, List, [], ◌∷◌, ◌++◌, ◌*◌, ◌-◌, ◌≤◌, ◌<◌, ◌+◌, length};
ghost use Rattle.listlaws.specs.Sift.{those};
ghost use Rattle.listlaws.specs.Order.{◌∈◌};
ghost use Rattle.clock.specs.Dots.{dots_of};
ghost use Rattle.removals.specs.declared.Removal.{Removal};
ghost use Rattle.limits.specs.Limits.{waiting_limit};
ghost use Rattle.removals.specs.Model.{no_removal, listed_in, waiting_of, waiting_as};
ghost use Rattle.removals.specs.Waits.{waits, unite_all, unite_into, cut_removal, reset_waiting};
ghost use Rattle.removals.specs.Valid.{ValidWaiting};
ghost use Rattle.removals.specs.Counted.{united_as, KeysLaid, joined_as, Numbered, reset_as};

use crate::{JoinedWaiting, Keys, Removal, ResetWaiting, Waiting, clock_before};
use clock::{Clock, Order};
use limits::WAITING;

impl Removal {
    pub fn new() -> Removal
        ensures { result ≡ no_removal }
    {
        let clock = Clock::new();
        let keys = Keys::new();
        Removal { clock, keys }
    }

    // Whether a map clock is less than the removal's clock, or concurrent with it.
    pub fn waits(self, seen: Clock) -> bool
        ensures { result ≡ waits (dots_of seen) self }
    {
        let o = seen.compare(self.clock);
        match o {
            Order::Less => true,
            Order::Concurrent => true,
            Order::Equal => false,
            Order::Greater => false,
        }
    }

    // The removal under its clock without the dots that `by` has seen.
    fn cut(self, by: Clock) -> Removal
        ensures { result ≡ cut_removal (dots_of by) self }
    {
        let clock = self.clock.cut(by).clock;
        let keys = self.keys;
        Removal { clock, keys }
    }
}

impl Waiting {
    pub fn new() -> Waiting
        ensures { result ≡ waiting_as [] }
    {
        let none = Removal::new();
        Waiting {
            items: [none; WAITING],
            len: 0,
        }
    }

    pub fn size(self) -> usize
        ensures { (result ≡ length (waiting_of self)) × (result ≤ waiting_limit) }
    {
        self.len.min(WAITING)
    }

    // The removals in use.
    pub fn as_slice(&self) -> &[Removal]
        ensures { result.now ≡ waiting_of self.now }
    {
        &self.items[..self.size()]
    }

    // One removal more behind the last.
    pub fn push(self, r: Removal) -> Waiting
        requires { self.len < waiting_limit }
        ensures { (result.len ≡ self.len + 1) × ((l : List Removal) → self ≡ waiting_as l → result ≡ waiting_as (l ++ (r ∷ []))) }
    {
        let mut out = self;
        out.store(r);
        out
    }

    // The same in place.
    fn store(&mut self, r: Removal)
        requires { self.now.len < waiting_limit }
        ensures { (self.new.len ≡ self.old.len + 1) × ((l : List Removal) → self.old ≡ waiting_as l → self.new ≡ waiting_as (l ++ (r ∷ []))) }
    {
        self.items[self.len] = r;
        self.len += 1;
    }

    // Those that a map clock does not cover.
    pub fn uncovered(self, seen: Clock) -> Waiting
        ensures { result ≡ waiting_as (those (waits (dots_of seen)) (waiting_of self)) }
    {
        let mut out = Waiting::new();
        for r in self.as_slice() {
            if r.waits(seen) {
                out.store(*r);
            }
        }
        out
    }

    // Both lists as one: removals with equal clocks are united.
    pub fn join(self, other: Waiting) -> JoinedWaiting
        requires { ((r : Removal) → r ∈ waiting_of self → KeysLaid r) × ((r : Removal) → r ∈ waiting_of other → KeysLaid r) }
        ensures { result ≡ joined_as (unite_all (waiting_of self) (waiting_of other)) }
    {
        let xs = self.as_slice();
        let ys = other.as_slice();
        let mut out = JoinedWaiting::new();
        let mut i: usize = 0;
        let mut j: usize = 0;
        // A `while`: each of the two is walked at its own pace.
        while i < xs.len() && j < ys.len() {
            let x = &xs[i];
            let y = &ys[j];
            if clock_before(x.clock, y.clock) {
                out = out.keep(*x);
                i += 1;
            } else if clock_before(y.clock, x.clock) {
                out = out.keep(*y);
                j += 1;
            } else {
                out = out.add(x.clock, x.keys.union(y.keys));
                i += 1;
                j += 1;
            }
        }
        out.trail(&xs[i..]).trail(&ys[j..])
    }

    // What a reset leaves of the waiting removals: cut, and united where clocks are equal then.
    pub fn reset(self, by: Clock) -> ResetWaiting
        requires { ValidWaiting (waiting_of self) }
        ensures { result ≡ reset_as (reset_waiting (dots_of by) (waiting_of self)) }
    {
        let none = Waiting::new();
        let mut out = ResetWaiting {
            over: false,
            waiting: none,
        };
        for w in self.as_slice() {
            let left = w.cut(by);
            if !left.clock.is_empty() {
                out = out.unite(left);
            }
        }
        out
    }
}

impl JoinedWaiting {
    fn new() -> JoinedWaiting
        ensures { (result ≡ joined_as []) × (result.count ≡ 0) × (result.waiting.len ≡ 0) }
    {
        let none = Waiting::new();
        JoinedWaiting {
            count: 0,
            long: false,
            waiting: none,
        }
    }

    // One removal more behind the last, with keys that may be over the limit.
    fn add(self, clock: Clock, united: Option<Keys>) -> JoinedWaiting
        requires { Numbered self (8 * waiting_limit - 1) }
        ensures { Numbered result (self.count + 1) × ((l : List Removal) (r : Removal) → self ≡ joined_as l → clock ≡ r.clock → KeysLaid r
            → united ≡ united_as (listed_in r) → result ≡ joined_as (l ++ (r ∷ []))) }
    {
        let long = self.long | united.is_none();
        let waiting = match united {
            Some(keys) if (self.count < WAITING) & !long => self
                .waiting
                .push(Removal { clock, keys }),
            _ => Waiting::new(),
        };
        JoinedWaiting {
            count: self.count + 1,
            long,
            waiting,
        }
    }

    // One removal more behind the last.
    fn keep(self, r: Removal) -> JoinedWaiting
        requires { Numbered self (8 * waiting_limit - 1) }
        ensures { Numbered result (self.count + 1) × ((l : List Removal) → self ≡ joined_as l → KeysLaid r → result ≡ joined_as (l ++ (r ∷ []))) }
    {
        self.add(r.clock, Some(r.keys))
    }

    // More removals behind the last.
    fn trail(self, rest: &[Removal]) -> JoinedWaiting
        requires { Numbered self (8 * waiting_limit - length rest.now) × (length rest.now ≤ waiting_limit) }
        ensures { Numbered result (self.count + length rest.now) × ((l : List Removal) → ((r : Removal) → r ∈ rest.now → KeysLaid r)
            → self ≡ joined_as l → result ≡ joined_as (l ++ rest.now)) }
    {
        let mut out = self;
        for r in rest {
            out = out.keep(*r);
        }
        out
    }
}

impl ResetWaiting {
    // One removal more, united with the one of the same clock if there is one.
    fn unite(self, r: Removal) -> ResetWaiting
        requires { (self.waiting.len < waiting_limit) × ((w : Removal) → w ∈ waiting_of self.waiting → KeysLaid w) × KeysLaid r }
        ensures { (l : List Removal) → ValidWaiting l → ValidWaiting (r ∷ []) → self ≡ reset_as l → result ≡ reset_as (unite_into l r) }
    {
        if self.over {
            return self;
        }
        let one = Waiting::new().push(r);
        let g = self.waiting.join(one);
        if g.long {
            let none = Waiting::new();
            return ResetWaiting {
                over: true,
                waiting: none,
            };
        }
        let waiting = g.waiting;
        ResetWaiting {
            over: false,
            waiting,
        }
    }
}
