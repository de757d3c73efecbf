// What a run of records says: slices that start with a record and hold whole ones.
#![tactic(auto)]

ghost use Rattle.std.specs.Prelude.{◌≡◌, ◌+◌, ◌*◌, ◌≤◌, length};
ghost use Rattle.limits.specs.Limits.{dot_limit};
ghost use Rattle.clock.specs.Dots.{clock_of};
ghost use Rattle.records.specs.Writing.{Wrote};
ghost use Rattle.runs.specs.Run.{run_dots};

use clock::{Clock, Dot};

// The clock of a run of dots.
pub fn clock_of(run: &[u8]) -> Clock
    requires { length run.now ≤ dot_limit * 16 }
    ensures { result ≡ clock_of (run_dots run.now) }
{
    let n = run.len() / 16;
    let mut clock = Clock::new();
    for i in 0..n {
        let r = records::read_record(run, i * 16);
        let k = clock.len;
        clock.dots[k] = Dot {
            actor: r.actor,
            counter: r.number,
        };
        clock.len = k + 1;
    }
    clock
}

// Copies a run to `at`, and answers the place behind it.
pub fn copy_run(run: &[u8], out: &mut [u8], at: usize) -> usize
    requires { at + length run.now ≤ length out.old }
    ensures { Wrote at run.now out.old out.new result }
{
    let n = run.len();
    // A copy of the whole slice would make the archive call memmove.
    for i in 0..n {
        out[at + i] = run[i];
    }
    at + n
}
