// How the clocks of two runs of dots stand to each other, where they lie: the comparison that ships.
#![tactic(auto)]

ghost use Rattle.std.specs.Prelude.{◌≡◌, List, ℕ, ◌<◌, get_or};
ghost use Rattle.clock.specs.Dots.{dots_of, order_of};
ghost use Rattle.clock.specs.Lawful.{Lawful};
ghost use Rattle.register.specs.declared.Value.{Value};
ghost use Rattle.register.specs.Values.{no_value};
ghost use Rattle.runs.specs.Run.{run_dots};
ghost use Rattle.comparing.specs.Registers.{RunsOf};

use clock::Order;

// How the clocks of two runs of dots stand to each other: one walk along both.
pub fn compare_runs(x: &[u8], y: &[u8]) -> Order
    requires { Lawful (run_dots x.now) × Lawful (run_dots y.now) }
    ensures { result ≡ order_of (run_dots x.now) (run_dots y.now) }
{
    let n = x.len() / 16;
    let m = y.len() / 16;
    let mut over = true;
    let mut under = true;
    let mut i: usize = 0;
    let mut j: usize = 0;
    // A `while`: each of the two is walked at its own pace.
    while i < n && j < m {
        let d = marks::dot_at(x, i);
        let e = marks::dot_at(y, j);
        if d.actor < e.actor {
            if !over {
                return Order::Concurrent;
            }
            under = false; // a dot that the second has not
            i += 1;
        } else if e.actor < d.actor {
            if !under {
                return Order::Concurrent;
            }
            over = false; // a dot that the first has not
            j += 1;
        } else {
            i += 1;
            j += 1;
            if d.counter < e.counter {
                if !under {
                    return Order::Concurrent; // the first has more elsewhere
                }
                over = false;
            } else if e.counter < d.counter {
                if !over {
                    return Order::Concurrent; // the second has more elsewhere
                }
                under = false;
            }
        }
    }
    clock::outcome(over & (m <= j), under & (n <= i))
}

// The run of the dots of the value at place j.
pub fn value_run(s: &[u8], starts: [usize; 5], j: usize) -> &[u8]
    requires { (n : ℕ) × (l : List Value) × (j < n) × RunsOf s.now starts n l }
    ensures { (n : ℕ) (l : List Value) → j < n → RunsOf s.now starts n l
        → (run_dots result.now ≡ dots_of (get_or l j no_value).clock) × Lawful (run_dots result.now) }
{
    &s[starts[j] * 16..starts[j + 1] * 16]
}
