// Entries that are finished: laid down one behind the other, and counted where they are over a limit.
ghost use Rattle.std.specs.Prelude.{◌≡◌, List, [], ◌∷◌, ◌++◌, ◌*◌, ◌≤◌, ◌<◌, ◌+◌};
ghost use Rattle.listlaws.specs.Sift.{sift, those};
ghost use Rattle.listlaws.specs.Order.{◌∈◌};
ghost use Rattle.removals.specs.Model.{waiting_of};
ghost use Rattle.entries.specs.declared.Entry.{Entry};
ghost use Rattle.limits.specs.Limits.{entry_limit};
ghost use Rattle.entries.specs.Model.{entries_of, LaidDown};
ghost use Rattle.entries.specs.Entries.{stays, run, aside};
ghost use Rattle.entries.specs.Steps.{wide_entry, Finishes};

use crate::{Entries, Entry, FinishedEntries, WideEntry};
use limits::ENTRIES;
use removals::Waiting;

// The place behind so many entries; the last one where there is none.
pub fn slot(count: usize) -> usize
    ensures { (result < entry_limit) × (count < entry_limit → result ≡ count) }
{
    count.min(ENTRIES - 1)
}

impl FinishedEntries {
    pub fn new() -> FinishedEntries
        ensures { (result.count ≡ 0) × Finishes [] result }
    {
        let none = Entry::new(0);
        FinishedEntries {
            count: 0,
            wide: false,
            items: [none; ENTRIES],
        }
    }

    // One entry more behind the last, unless its clock is empty.
    pub fn add(self, h: WideEntry) -> FinishedEntries
        requires { self.count < 4 * entry_limit }
        ensures { (result.count ≤ self.count + 1) × ((l : List Entry) (e : Entry) → LaidDown e → Finishes l self → h ≡ wide_entry e
            → Finishes (l ++ those stays (e ∷ [])) result) }
    {
        if h.clock.is_empty() {
            return self;
        }
        let mut out = self;
        let laid = h.lay();
        let e = laid.entry;
        let k = slot(out.count);
        out.items[k] = e;
        out.wide = out.wide | laid.over;
        out.count = out.count + 1;
        out
    }

    // The entries on one side of a key, each with every waiting removal, behind the last.
    pub fn side(self, from: Entries, key: u32, below: bool, waiting: Waiting) -> FinishedEntries
        requires { self.count ≤ 2 * entry_limit }
        ensures { (result.count ≤ self.count + entry_limit) × ((l : List Entry) → ((e : Entry) → e ∈ entries_of from → LaidDown e) → Finishes l self
            → Finishes (l ++ sift stays (run (waiting_of waiting)) (those (aside below key) (entries_of from))) result) }
    {
        let mut out = self;
        for x in from.as_slice() {
            if x.aside(key, below) {
                let h = x.widened().run(waiting);
                if !h.clock.is_empty() {
                    let laid = h.lay();
                    let e = laid.entry;
                    let k = slot(out.count);
                    out.items[k] = e;
                    out.wide = out.wide | laid.over;
                    out.count = out.count + 1;
                }
            }
        }
        out
    }
}
