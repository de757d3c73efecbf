// The operations of a list of bytes: where each ends, and how many there are.
#![tactic(auto)]

ghost use Rattle.std.specs.Prelude.{◌≡◌, ◌||◌, ◌<◌, eqb, length};
ghost use Rattle.records.specs.Kinds.{removal_kind, update_kind};
ghost use Rattle.promises.specs.CatchUp.{operations_of};
ghost use Rattle.operations.specs.Walking.{EndsAt};

use records::{REMOVAL, UPDATE};

fn is_head(kind: u8) -> bool
    ensures { result ≡ (eqb kind removal_kind || eqb kind update_kind) }
{
    (kind == REMOVAL) | (kind == UPDATE)
}

// Where the operation that begins at `at` ends: at the next head, or at the list's end.
pub fn operation_end(list: &[u8], at: usize) -> usize
    requires { at < length list.now }
    ensures { EndsAt list.now at result }
{
    let n = list.len();
    if n - at < 16 {
        return n;
    }
    for k in 1..(n - at) / 16 {
        let p = at + k * 16;
        if is_head(list[p]) {
            return p;
        }
    }
    n
}

pub fn count_operations(list: &[u8]) -> usize
    ensures { result ≡ length (operations_of list.now) }
{
    let n = list.len();
    let mut at: usize = 0;
    let mut count: usize = 0;
    // A `while`: where an operation ends stands in the list.
    while at < n {
        at = operation_end(list, at);
        count += 1;
    }
    count
}
