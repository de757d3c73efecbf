// What becomes of one entry: cut, removed, put, merged.
ghost use Rattle.std.specs.Prelude.{◌≡◌, [], ◌≤◌, length};
ghost use Rattle.limits.specs.Limits.{dot_limit};
ghost use Rattle.clock.specs.Dots.{dots_of, add_dot};
ghost use Rattle.removals.specs.Model.{waiting_of};
ghost use Rattle.entries.specs.declared.Entry.{Entry};
ghost use Rattle.entries.specs.Model.{dots_in, entry_as};
ghost use Rattle.entries.specs.Entries.{cut_entry, remove_from, run, put_entry, aside, alone, together};
ghost use Rattle.entries.specs.Steps.{wide_entry, laid_entry, MergeFits, survivor_of};

use crate::{Entry, LaidEntry, Update, WideEntry};
use clock::Clock;
use register::Register;
use removals::{Removal, Waiting};

impl Entry {
    // An entry of a key with nothing in it.
    pub fn new(key: u32) -> Entry
        ensures { result ≡ entry_as key [] [] }
    {
        let clock = Clock::new();
        let register = Register::new();
        Entry {
            key,
            clock,
            register,
        }
    }

    pub fn widened(self) -> WideEntry
        ensures { result ≡ wide_entry self }
    {
        let clock = self.clock;
        let wide = self.register.wide();
        WideEntry {
            key: self.key,
            clock,
            wide,
        }
    }

    // Without the dots that `by` has seen, in the clock and in the register.
    pub fn cut(self, by: Clock) -> Entry
        ensures { result ≡ cut_entry (dots_of by) self }
    {
        let clock = self.clock.cut(by).clock;
        let register = self.register.cut(by);
        Entry {
            key: self.key,
            clock,
            register,
        }
    }

    // What a removal leaves of the entry.
    pub fn removed(self, r: Removal) -> Entry
        ensures { result ≡ remove_from r self }
    {
        if r.keys.contains(self.key) {
            return self.cut(r.clock);
        }
        self
    }

    // Whether the entry stands below a key, or, where `below` is not set, above it.
    pub fn aside(self, key: u32, below: bool) -> bool
        ensures { result ≡ aside below key self }
    {
        if below {
            self.key < key
        } else {
            key < self.key
        }
    }

    // The entry with an update's dot and put.
    pub fn put(self, u: Update) -> WideEntry
        requires { length (add_dot (dots_in self) u.dot) ≤ dot_limit }
        ensures { result ≡ wide_entry (put_entry u self) }
    {
        let grown = self.clock.add(u.dot);
        let clock = grown.clock;
        let wide = self.register.put(u.put);
        WideEntry {
            key: self.key,
            clock,
            wide,
        }
    }

    // What a merge leaves of an entry that one map has alone; `other` is the other map's clock.
    pub fn alone(self, other: Clock) -> Option<WideEntry>
        ensures { result ≡ survivor_of (alone (dots_of other) self) }
    {
        if other.covers(self.clock) {
            return None; // the other map has seen all of it
        }
        let clock = self.clock.cut(other).clock;
        let deleted = other.cut(clock).clock;
        let wide = self.register.wide().cut(deleted);
        Some(WideEntry {
            key: self.key,
            clock,
            wide,
        })
    }

    // What a merge makes of an entry that both maps have; `ours` and `theirs` are the maps' clocks.
    pub fn together(self, other: Entry, ours: Clock, theirs: Clock) -> Option<WideEntry>
        requires { MergeFits (dots_of ours) (dots_of theirs) self other }
        ensures { result ≡ survivor_of (together (dots_of ours) (dots_of theirs) self other) }
    {
        let common = self.clock.common(other.clock);
        let mine = self.clock.cut(theirs).clock;
        let yours = other.clock.cut(ours).clock;
        let keep = common.join(mine).join(yours);
        let clock = keep.clock;
        if clock.is_empty() {
            return None;
        }
        let all = self.clock.join(other.clock);
        let deleted = all.clock.cut(clock).clock;
        let wide = self.register.merge(other.register).cut(deleted);
        Some(WideEntry {
            key: self.key,
            clock,
            wide,
        })
    }
}

impl WideEntry {
    // What every waiting removal leaves of it.
    pub fn run(self, waiting: Waiting) -> WideEntry
        ensures { (e : Entry) → self ≡ wide_entry e → result ≡ wide_entry (run (waiting_of waiting) e) }
    {
        let key = self.key;
        let mut clock = self.clock;
        let mut wide = self.wide;
        for w in waiting.as_slice() {
            if w.keys.contains(key) {
                clock = clock.cut(w.clock).clock;
                wide = wide.cut(w.clock);
            }
        }
        WideEntry { key, clock, wide }
    }

    // The entry laid down, or that it has too many values.
    pub fn lay(self) -> LaidEntry
        ensures { result ≡ laid_entry self }
    {
        let clock = self.clock;
        let laid = self.wide.settle();
        let register = laid.register;
        let entry = Entry {
            key: self.key,
            clock,
            register,
        };
        LaidEntry {
            over: laid.over,
            entry,
        }
    }
}
