// Registers: concurrent values in order, each under a clock. The Rust's mvreg.rs, on arrays with a count, by value.
#![tactic(auto)]

ghost use Rattle.std.specs.Prelude.{◌≡◌, List, [], ◌∷◌, ◌++◌, map, ◌≤◌, ◌<◌, ◌+◌, length};
ghost use Rattle.listlaws.specs.Sift.{those};
ghost use Rattle.clock.specs.Dots.{dots_of, fitted};
ghost use Rattle.register.specs.declared.Content.{Content};
ghost use Rattle.register.specs.declared.Value.{Value};
ghost use Rattle.limits.specs.Limits.{value_limit};
ghost use Rattle.register.specs.Values.{values_of, register_of, contents_of, yields, outdone, standing, put_values, cut_value, cut_values};
ghost use Rattle.register.specs.Values.{merge_values, clock_over, read_of};
ghost use Rattle.register.specs.InHand.{wide_room, wide_values, wide_of, settled};

use clock::{Clock, Joined, Order};
use limits::VALUES;

// Room for the values of two registers.
pub const WIDE: usize = 2 * VALUES;

// What a value is: its number, and the origin code of who set it.
#[derive(Clone, Copy, PartialEq, Eq)]
pub struct Content {
    pub number: u64,
    pub origin: u16,
}

#[derive(Clone, Copy)]
pub struct Value {
    pub clock: Clock,
    pub value: Content,
}

#[derive(Clone, Copy)]
pub struct Register {
    pub values: [Value; VALUES],
    pub len: usize,
}

// A register in hand, which may stand above the limit until what follows has cut it.
#[derive(Clone, Copy)]
pub struct Wide {
    pub values: [Value; WIDE],
    pub len: usize,
}

// A register in hand laid down again: over the limit, `over` is set and the register is empty.
#[derive(Clone, Copy)]
pub struct Settled {
    pub over: bool,
    pub register: Register,
}

// What a register's reader gets: the values in order, under the clock that they have together.
#[derive(Clone, Copy)]
pub struct Read {
    pub joined: Joined,
    pub contents: Contents,
}

// Values without their clocks.
#[derive(Clone, Copy)]
pub struct Contents {
    pub items: [Content; VALUES],
    pub len: usize,
}

impl Value {
    // Whether this value's clock is less than the other's, or, where `equal_too` is set, equal to it.
    fn yields(self, other: Value, equal_too: bool) -> bool
        ensures { result ≡ yields equal_too self other }
    {
        match self.clock.compare(other.clock) {
            Order::Less => true,
            Order::Equal => equal_too,
            Order::Greater | Order::Concurrent => false,
        }
    }

    // The value under its clock without the dots that `by` has seen.
    pub fn cut(self, by: Clock) -> Value
        ensures { result ≡ cut_value (dots_of by) self }
    {
        let c = self.clock.cut(by).clock;
        let value = self.value;
        Value { clock: c, value }
    }
}

impl Register {
    pub fn new() -> Register
        ensures { result ≡ register_of [] }
    {
        let none = Clock::new();
        let v = Value {
            clock: none,
            value: Content {
                number: 0,
                origin: 0,
            },
        };
        Register {
            values: [v; VALUES],
            len: 0,
        }
    }

    pub fn size(self) -> usize
        ensures { (result ≡ length (values_of self)) × (result ≤ value_limit) }
    {
        self.len.min(VALUES)
    }

    // The values in use.
    pub fn as_slice(&self) -> &[Value]
        ensures { result.now ≡ values_of self.now }
    {
        &self.values[..self.size()]
    }

    // One value more behind the last.
    pub fn push(self, v: Value) -> Register
        requires { self.len < value_limit }
        ensures { (l : List Value) → self ≡ register_of l → result ≡ register_of (l ++ (v ∷ [])) }
    {
        let mut out = self;
        let k = out.len;
        out.values[k] = v;
        out.len = k + 1;
        out
    }

    // Whether a value yields to one of these.
    fn outdoes(self, v: Value, equal_too: bool) -> bool
        ensures { result ≡ outdone equal_too (values_of self) v }
    {
        self.as_slice().iter().any(|w| v.yields(*w, equal_too))
    }

    // The values that yield to none of `over`.
    pub fn standing(self, over: Register, equal_too: bool) -> Register
        ensures { result ≡ register_of (those (standing equal_too (values_of over)) (values_of self)) }
    {
        let mut out = Register::new();
        for v in self.as_slice() {
            if !over.outdoes(*v, equal_too) {
                let k = out.len;
                out.values[k] = *v;
                out.len = k + 1;
            }
        }
        out
    }

    // The register in hand, as it is.
    pub fn wide(self) -> Wide
        ensures { result ≡ wide_of (values_of self) }
    {
        Wide::new().trail(self)
    }

    // The register with a value put into it: the Rust's `apply`.
    pub fn put(self, v: Value) -> Wide
        ensures { result ≡ wide_of (put_values (values_of self) v) }
    {
        if v.clock.is_empty() {
            return self.wide();
        }
        let put = Register::new().push(v);
        let left = self.standing(put, true);
        let out = left.wide();
        if left.outdoes(v, false) {
            return out;
        }
        out.push(v)
    }

    // Without the dots that `by` has seen: the Rust's `reset_remove`.
    pub fn cut(self, by: Clock) -> Register
        ensures { result ≡ register_of (cut_values (dots_of by) (values_of self)) }
    {
        let s = self.wide().cut(by).settle();
        s.register
    }

    // Both registers' values, without those that the other has overwritten.
    pub fn merge(self, other: Register) -> Wide
        ensures { result ≡ wide_of (merge_values (values_of self) (values_of other)) }
    {
        let ours = self.standing(other, false);
        let theirs = other.standing(ours, true);
        ours.wide().trail(theirs)
    }

    // The clocks of the values, joined: the Rust's `clock`.
    fn clock_over(self) -> Joined
        ensures { result ≡ fitted (clock_over (values_of self)) }
    {
        let mut out = Joined::new();
        for v in self.as_slice() {
            out = out.join(v.clock);
        }
        out
    }

    // The values, without their clocks.
    fn contents(self) -> Contents
        ensures { result ≡ contents_of (map (λ v. v.value) (values_of self)) }
    {
        let none = Content {
            number: 0,
            origin: 0,
        };
        let mut out = Contents {
            items: [none; VALUES],
            len: 0,
        };
        for v in self.as_slice() {
            out = out.push(v.value);
        }
        out
    }

    pub fn read(self) -> Read
        ensures { result ≡ read_of (values_of self) }
    {
        let joined = self.clock_over();
        let contents = self.contents();
        Read { joined, contents }
    }
}

impl Contents {
    // One more behind the last.
    fn push(self, x: Content) -> Contents
        requires { self.len < value_limit }
        ensures { (l : List Content) → self ≡ contents_of l → result ≡ contents_of (l ++ (x ∷ [])) }
    {
        let mut out = self;
        let k = out.len;
        out.items[k] = x;
        out.len = k + 1;
        out
    }
}

impl Wide {
    fn new() -> Wide
        ensures { result ≡ wide_of [] }
    {
        let none = Clock::new();
        let v = Value {
            clock: none,
            value: Content {
                number: 0,
                origin: 0,
            },
        };
        Wide {
            values: [v; WIDE],
            len: 0,
        }
    }

    pub fn size(self) -> usize
        ensures { (result ≡ length (wide_values self)) × (result ≤ wide_room) }
    {
        self.len.min(WIDE)
    }

    // The values in use.
    pub fn as_slice(&self) -> &[Value]
        ensures { result.now ≡ wide_values self.now }
    {
        &self.values[..self.size()]
    }

    // One value more behind the last.
    fn push(self, v: Value) -> Wide
        requires { self.len < wide_room }
        ensures { (result.len ≡ self.len + 1) × ((l : List Value) → self ≡ wide_of l → result ≡ wide_of (l ++ (v ∷ []))) }
    {
        let mut out = self;
        let k = out.len;
        out.values[k] = v;
        out.len = k + 1;
        out
    }

    // A register's values behind the last.
    fn trail(self, from: Register) -> Wide
        requires { self.len + length (values_of from) ≤ wide_room }
        ensures { (l : List Value) → self ≡ wide_of l → result ≡ wide_of (l ++ values_of from) }
    {
        let mut out = self;
        let n = out.len;
        let end = n + from.size();
        out.values[n..end].copy_from_slice(from.as_slice());
        out.len = end;
        out
    }

    // Cut each value's clock, and drop the values left with none.
    pub fn cut(self, by: Clock) -> Wide
        ensures { result ≡ wide_of (cut_values (dots_of by) (wide_values self)) }
    {
        let mut out = Wide::new();
        for v in self.as_slice() {
            let left = v.cut(by);
            if !left.clock.is_empty() {
                let k = out.len;
                out.values[k] = left;
                out.len = k + 1;
            }
        }
        out
    }

    // The first values, as many as a register holds.
    fn narrow(self) -> Register
        requires { length (wide_values self) ≤ value_limit }
        ensures { result ≡ register_of (wide_values self) }
    {
        let n = self.size();
        let mut out = Register::new();
        out.values[0..n].copy_from_slice(self.as_slice());
        out.len = n;
        out
    }

    // The register of these values, or that they are over the limit.
    pub fn settle(self) -> Settled
        ensures { result ≡ settled (wide_values self) }
    {
        if self.size() <= VALUES {
            let register = self.narrow();
            return Settled {
                over: false,
                register,
            };
        }
        let none = Register::new();
        Settled {
            over: true,
            register: none,
        }
    }
}
