// All entries, in the order of their keys: looked up, removed, reset, merged.
ghost use Rattle.std.specs.Prelude.{◌≡◌, true, List, [], ◌∷◌, ◌++◌, ◌≤◌, ◌<◌, ◌+◌, eqb, length};
ghost use Rattle.listlaws.specs.Sift.{sift, those};
ghost use Rattle.listlaws.specs.Order.{◌∈◌};
ghost use Rattle.clock.specs.Dots.{dots_of};
ghost use Rattle.removals.specs.Model.{waiting_of};
ghost use Rattle.entries.specs.declared.Entry.{Entry};
ghost use Rattle.limits.specs.Limits.{entry_limit};
ghost use Rattle.entries.specs.Model.{entries_of, entries_as};
ghost use Rattle.entries.specs.Entries.{stays, cut_entry, remove_entries, run, entry_at, merge_entries};
ghost use Rattle.entries.specs.Steps.{MergeFits, merge_step, Finishes};

use crate::finished::slot;
use crate::{Entries, Entry, FinishedEntries, MergeStep};
use clock::Clock;
use limits::ENTRIES;
use removals::{Removal, Waiting};

impl Entries {
    pub fn new() -> Entries
        ensures { result ≡ entries_as [] }
    {
        let none = Entry::new(0);
        Entries {
            items: [none; ENTRIES],
            len: 0,
        }
    }

    pub fn size(self) -> usize
        ensures { (result ≡ length (entries_of self)) × (result ≤ entry_limit) }
    {
        self.len.min(ENTRIES)
    }

    // The entries in use.
    pub fn as_slice(&self) -> &[Entry]
        ensures { result.now ≡ entries_of self.now }
    {
        &self.items[..self.size()]
    }

    // One entry more behind the last.
    pub fn push(self, e: Entry) -> Entries
        requires { self.len < entry_limit }
        ensures { (result.len ≡ self.len + 1) × ((l : List Entry) → self ≡ entries_as l → result ≡ entries_as (l ++ (e ∷ []))) }
    {
        let mut out = self;
        let k = out.len;
        out.items[k] = e;
        out.len = k + 1;
        out
    }

    // The entry of a key, a new one if absent.
    pub fn at(self, key: u32) -> Entry
        ensures { result ≡ entry_at key (entries_of self) }
    {
        for e in self.as_slice() {
            if e.key == key {
                return *e;
            }
        }
        Entry::new(key)
    }

    // The entry of a key alone, if there is one.
    pub fn only(self, key: u32) -> Entries
        ensures { result ≡ entries_as (those (λ e. eqb e.key key) (entries_of self)) }
    {
        let mut out = Entries::new();
        for e in self.as_slice() {
            if e.key == key {
                let k = out.len;
                out.items[k] = *e;
                out.len = k + 1;
            }
        }
        out
    }

    // What a removal leaves of the entries.
    pub fn remove(self, r: Removal) -> Entries
        ensures { result ≡ entries_as (remove_entries r (entries_of self)) }
    {
        let mut out = Entries::new();
        for e in self.as_slice() {
            let left = e.removed(r);
            if !left.clock.is_empty() {
                let k = out.len;
                out.items[k] = left;
                out.len = k + 1;
            }
        }
        out
    }

    // What a reset leaves of the entries.
    pub fn reset(self, by: Clock) -> Entries
        ensures { result ≡ entries_as (sift stays (cut_entry (dots_of by)) (entries_of self)) }
    {
        let mut out = Entries::new();
        for e in self.as_slice() {
            let left = e.cut(by);
            if !left.clock.is_empty() {
                let k = out.len;
                out.items[k] = left;
                out.len = k + 1;
            }
        }
        out
    }

    // Both maps' entries as one, each with their waiting removals and then ours; `mine` and `yours` are the maps' clocks.
    pub fn merge(
        self,
        other: Entries,
        mine: Clock,
        yours: Clock,
        ours: Waiting,
        theirs: Waiting,
    ) -> FinishedEntries
        requires { (x y : Entry) → x ∈ entries_of self → y ∈ entries_of other → MergeFits (dots_of mine) (dots_of yours) x y }
        ensures { Finishes (sift stays (λ e. run (waiting_of ours) (run (waiting_of theirs) e))
            (merge_entries (dots_of mine) (dots_of yours) (entries_of self) (entries_of other))) result }
    {
        let n = self.size();
        let m = other.size();
        let mut out = FinishedEntries::new();
        let mut i: usize = 0;
        let mut j: usize = 0;
        // A `while`: each of the two is walked at its own pace.
        while (i < n) | (j < m) {
            let a = slot(i);
            let x = self.items[a];
            let b = slot(j);
            let y = other.items[b];
            let step = merge_step(x, y, i < n, j < m, mine, yours);
            i += step.ours;
            j += step.theirs;
            if let Some(left) = step.survivor {
                let h = left.run(theirs).run(ours);
                if !h.clock.is_empty() {
                    let laid = h.lay();
                    let e = laid.entry;
                    let k = slot(out.count);
                    out.items[k] = e;
                    out.wide = out.wide | laid.over;
                    out.count = out.count + 1;
                }
            }
        }
        out
    }
}

// The next of both maps' entries, `x` where there is one of ours and `y` where there is one of theirs; `mine` and `yours` are the maps' clocks.
fn merge_step(x: Entry, y: Entry, ours: bool, theirs: bool, mine: Clock, yours: Clock) -> MergeStep
    requires { ours ≡ true → theirs ≡ true → MergeFits (dots_of mine) (dots_of yours) x y }
    ensures { result ≡ merge_step (dots_of mine) (dots_of yours) ours theirs x y }
{
    if ours & (!theirs | (x.key < y.key)) {
        let survivor = x.alone(yours);
        return MergeStep {
            survivor,
            ours: 1,
            theirs: 0,
        };
    }
    if !ours | (y.key < x.key) {
        let survivor = y.alone(mine);
        return MergeStep {
            survivor,
            ours: 0,
            theirs: 1,
        };
    }
    let survivor = x.together(y, mine, yours);
    MergeStep {
        survivor,
        ours: 1,
        theirs: 1,
    }
}
