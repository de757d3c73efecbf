// How many entries a sketch has, and how many records.
ghost use Rattle.std.specs.Prelude.{◌≡◌, List, [], ◌∷◌, ◌++◌, ℕ, ◌+◌, ◌*◌, ◌-◌, ◌≤◌, ◌<◌};
ghost use Rattle.clock.specs.declared.Dot.{Dot};
ghost use Rattle.limits.specs.Limits.{dot_limit, value_limit, entry_limit};
ghost use Rattle.register.specs.declared.Value.{Value};
ghost use Rattle.entries.specs.declared.Entry.{Entry};
ghost use Rattle.entries.specs.Model.{entry_as};
ghost use Rattle.listlaws.specs.Fold.{total_of};
ghost use Rattle.sketch.specs.Drawn.{Placed, source_size, sources_of, Ready, Draws, Summed};

use crate::{Sketched, Source, Sums};
use limits::{DOTS, ENTRIES, VALUES};

// How many dots a source's run has.
fn run_length(x: Source) -> usize
    ensures { (result ≤ dot_limit) × ((s : List ℕ) → Placed s x → result ≡ x.to - x.from) }
{
    (x.to.saturating_sub(x.from) as usize).min(DOTS)
}

// The values of an entry and what is left of their dots.
fn count_sources(e: Sketched) -> usize
    ensures { (result ≤ value_limit * (1 + dot_limit)) × ((s t : List ℕ) → Ready s t e → result ≡ total_of source_size (sources_of e)) }
{
    let mut total: usize = 0;
    for x in e.as_slice() {
        total += 1 + marks::count_marks(x.marks, run_length(*x));
    }
    total
}

impl Sums {
    pub fn new() -> Sums
        ensures { (result.count ≡ 0) × Summed [] result }
    {
        Sums {
            count: 0,
            wide: false,
            dots: 0,
            others: 0,
        }
    }

    // One entry more.
    pub fn with(self, k: Sketched) -> Sums
        requires { (self.count < 2 * entry_limit) × ((l : List Entry) × Summed l self) }
        ensures { (result.count ≡ self.count + 1) × ((s t : List ℕ) (l : List Entry) (key : ℕ) (d : List Dot) (vs : List Value)
            → Summed l self → Draws s t key d vs k → Summed (l ++ (entry_as key d vs ∷ [])) result) }
    {
        let n = self.count;
        let wide = self.wide | (VALUES < k.len);
        if n < ENTRIES {
            let own = k.own;
            let dots = self.dots + own.size();
            let others = self.others + count_sources(k);
            return Sums {
                count: n + 1,
                wide,
                dots,
                others,
            };
        }
        Sums {
            count: n + 1,
            wide,
            dots: self.dots,
            others: self.others,
        }
    }
}
