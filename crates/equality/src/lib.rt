// Equality of registers: every value under its clock as often in one as in the other, in whatever order.
#![tactic(auto)]

ghost use Rattle.std.specs.Prelude.{◌≡◌, ◌≤◌};
ghost use Rattle.limits.specs.Limits.{value_limit};
ghost use Rattle.register.specs.Values.{values_of};
ghost use Rattle.equality.specs.Equality.{same_pair, times_in, as_often, equal_values};

use clock::Order;
use register::{Register, Value};

// Whether both hold the same value, set by the same, under the same clock.
fn same_pair(v: Value, other: Value) -> bool
    ensures { result ≡ same_pair v other }
{
    match v.clock.compare(other.clock) {
        Order::Equal => v.value == other.value,
        Order::Less | Order::Greater | Order::Concurrent => false,
    }
}

// How many times a value stands here under the same clock.
fn times(register: Register, v: Value) -> usize
    ensures { (result ≡ times_in (values_of register) v) × (result ≤ value_limit) }
{
    register
        .as_slice()
        .iter()
        .filter(|w| same_pair(v, **w))
        .count()
}

// Whether every value that stands `here` stands in both the same number of times under its clock.
fn as_often(register: Register, other: Register, here: Register) -> bool
    ensures { result ≡ as_often (values_of register) (values_of other) (values_of here) }
{
    here.as_slice()
        .iter()
        .all(|v| times(register, *v) == times(other, *v))
}

// Equality, in whatever order: the Rust's `eq`, where no pair stands twice.
pub fn equals(register: Register, other: Register) -> bool
    ensures { result ≡ equal_values (values_of register) (values_of other) }
{
    as_often(register, other, register) & as_often(register, other, other)
}
