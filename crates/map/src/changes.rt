// What changes a map: the Rust's `apply` with its removal and its update, `merge` and `reset_remove`.
ghost use Rattle.std.specs.Prelude.{◌≡◌};
ghost use Rattle.clock.specs.Dots.{dots_of};
ghost use Rattle.map.specs.Model.{no_map};
ghost use Rattle.map.specs.Removing.{remove};
ghost use Rattle.map.specs.Updating.{update};
ghost use Rattle.map.specs.Applying.{apply};
ghost use Rattle.map.specs.Merging.{merge};
ghost use Rattle.map.specs.Resetting.{reset};
ghost use Rattle.map.specs.Judging.{judged, judgement};
ghost use Rattle.map.specs.Valid.{Within, RemovalWithin, UpdateWithin, OpWithin};

use crate::{Map, Op};
use clock::Clock;
use entries::{Entries, FinishedEntries, Update};
use limits::{ENTRIES, WAITING};
use refusals::Refusal;
use removals::{Removal, Waiting};

impl Map {
    pub fn new() -> Map
        ensures { result ≡ no_map }
    {
        let clock = Clock::new();
        let entries = Entries::new();
        let waiting = Waiting::new();
        Map {
            clock,
            entries,
            waiting,
        }
    }

    // A removal: entries lose what its clock has seen, and it waits where the map clock does not cover it.
    fn apply_keyset_rm(self, r: Removal) -> Result<Map, Refusal>
        requires { Within self × RemovalWithin r }
        ensures { judgement result ≡ judged (remove self r) }
    {
        let clock = self.clock;
        let entries = self.entries.remove(r);
        if !r.waits(clock) {
            let waiting = self.waiting;
            return Ok(Map {
                clock,
                entries,
                waiting,
            });
        }
        let one = Waiting::new().push(r);
        let g = self.waiting.join(one);
        if WAITING < g.count {
            return Err(Refusal::TooManyWaiting);
        }
        if g.long {
            return Err(Refusal::TooManyKeys);
        }
        let waiting = g.waiting;
        Ok(Map {
            clock,
            entries,
            waiting,
        })
    }

    // An update: an entry takes its dot and its put, and every entry what the waiting removals leave of it.
    fn apply_update(self, u: Update) -> Result<Map, Refusal>
        requires { Within self × UpdateWithin u }
        ensures { judgement result ≡ judged (update self u) }
    {
        let d = u.dot;
        if d.counter <= self.clock.get(d.actor) {
            return Ok(self);
        }
        let grown = self.clock.add(d);
        if grown.over {
            return Err(Refusal::TooManyDots);
        }
        let mut all = FinishedEntries::new();
        all = all.side(self.entries, u.key, true, self.waiting);
        all = all.add(self.entries.at(u.key).put(u).run(self.waiting));
        all = all.side(self.entries, u.key, false, self.waiting);
        if ENTRIES < all.count {
            return Err(Refusal::TooManyEntries);
        }
        if all.wide {
            return Err(Refusal::TooManyValues);
        }
        let clock = grown.clock;
        let left = self.waiting.uncovered(clock);
        let items = all.items;
        let done = Entries {
            items,
            len: all.count,
        };
        Ok(Map {
            clock,
            entries: done,
            waiting: left,
        })
    }

    pub fn apply(self, op: Op) -> Result<Map, Refusal>
        requires { Within self × OpWithin op }
        ensures { judgement result ≡ judged (apply self op) }
    {
        if op.up {
            return self.apply_update(op.update);
        }
        self.apply_keyset_rm(op.removal)
    }

    pub fn merge(self, other: Map) -> Result<Map, Refusal>
        requires { Within self × Within other }
        ensures { judgement result ≡ judged (merge self other) }
    {
        let mine = self.clock;
        let yours = other.clock;
        let joined = mine.join(yours);
        if joined.over {
            return Err(Refusal::TooManyDots);
        }
        let clock = joined.clock;
        let ours = self.waiting;
        let theirs = other.waiting;
        let both = self.entries.merge(other.entries, mine, yours, ours, theirs);
        if ENTRIES < both.count {
            return Err(Refusal::TooManyEntries);
        }
        if both.wide {
            return Err(Refusal::TooManyValues);
        }
        let left = ours.uncovered(clock);
        let united = left.join(theirs.uncovered(clock));
        if WAITING < united.count {
            return Err(Refusal::TooManyWaiting);
        }
        if united.long {
            return Err(Refusal::TooManyKeys);
        }
        let items = both.items;
        let entries = Entries {
            items,
            len: both.count,
        };
        let waiting = united.waiting;
        Ok(Map {
            clock,
            entries,
            waiting,
        })
    }

    pub fn reset_remove(self, by: Clock) -> Result<Map, Refusal>
        requires { Within self }
        ensures { judgement result ≡ judged (reset self (dots_of by)) }
    {
        let clock = self.clock.cut(by).clock;
        let entries = self.entries.reset(by);
        let left = self.waiting.reset(by);
        if left.over {
            return Err(Refusal::TooManyKeys);
        }
        let waiting = left.waiting;
        Ok(Map {
            clock,
            entries,
            waiting,
        })
    }
}
