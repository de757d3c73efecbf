// The next key of a merge, from two images where they lie.
ghost use Rattle.std.specs.Prelude.{◌≡◌, true, ◌||◌, List, ◌*◌, ◌≤◌, ◌<◌, ltb, length};
ghost use Rattle.listlaws.specs.Order.{◌∈◌};
ghost use Rattle.limits.specs.Limits.{dot_limit};
ghost use Rattle.clock.specs.Dots.{dots_of, clock_of, cut_dots, join_dots};
ghost use Rattle.clock.specs.Lawful.{Lawful};
ghost use Rattle.entries.specs.declared.Entry.{Entry};
ghost use Rattle.entries.specs.Model.{dots_in};
ghost use Rattle.entries.specs.Entries.{keep_dots};
ghost use Rattle.entrywalk.specs.Walking.{Ahead, LiesAt};
ghost use Rattle.merging.specs.Coming.{GoesAlone, MergeComes};

use crate::{Alone, Coming};
use clock::{Clock, Order};
use entrywalk::{Cursor, Lain};
use keeping::Kept;
use walks::Layout;

// The next entry of a map, where the other map does not have it.
fn alone(s: &[u8], l: Layout, x: Cursor, other: Clock) -> Alone
    requires { (x.own < l.third) × (((es : List Entry) × Ahead s.now l x es) × Lawful (dots_of other)) }
    ensures { (es : List Entry) → Ahead s.now l x es → GoesAlone s.now l x (dots_of other) es result }
{
    let entry = entrywalk::entry_at(s, l, x);
    let keep = entrywalk::own_left(s, entry, other);
    let gone = other.cut(keep).clock;
    Alone { entry, keep, gone }
}

// What a merge keeps of the dots of two entries, and what it deletes: all and nothing where both have the same.
fn meet(s: &[u8], e: Lain, t: &[u8], f: Lain, mine: Clock, yours: Clock) -> Kept
    requires { ((x y : Entry) × LiesAt s.now x e × LiesAt t.now y f × (length (join_dots (dots_in x) (dots_in y)) ≤ dot_limit))
        × (Lawful (dots_of mine) × Lawful (dots_of yours)) }
    ensures { (x y : Entry) → LiesAt s.now x e → LiesAt t.now y f
        → (result.keep ≡ clock_of (keep_dots (dots_of mine) (dots_of yours) (dots_in x) (dots_in y)))
        × (result.gone ≡ clock_of (cut_dots (keep_dots (dots_of mine) (dots_of yours) (dots_in x) (dots_in y)) (join_dots (dots_in x) (dots_in y)))) }
{
    let ours = e.dots;
    let theirs = f.dots;
    let i = ours.from * 16;
    let j = ours.to * 16;
    let k = theirs.from * 16;
    let l = theirs.to * 16;
    let c = entrywalk::own_clock(s, e);
    let o = comparing::compare_runs(&s[i..j], &t[k..l]);
    if let Order::Equal = o {
        let none = Clock::new();
        return Kept {
            keep: c,
            gone: none,
        };
    }
    let d = entrywalk::own_clock(t, f);
    keeping::keeps(c, d, mine, yours)
}

// What comes next of two maps' entries; `mine` and `yours` are the maps' clocks.
pub fn next(
    s: &[u8],
    t: &[u8],
    l: Layout,
    m: Layout,
    mine: Clock,
    yours: Clock,
    x: Cursor,
    y: Cursor,
) -> Coming
    requires { ((ltb x.own l.third || ltb y.own m.third) ≡ true)
        × ((Lawful (dots_of mine) × Lawful (dots_of yours)) × ((es fs : List Entry) × Ahead s.now l x es × Ahead t.now m y fs
        × ((e f : Entry) → e ∈ es → f ∈ fs → length (join_dots (dots_in e) (dots_in f)) ≤ dot_limit))) }
    ensures { (es fs : List Entry) → Ahead s.now l x es → Ahead t.now m y fs
        → MergeComes s.now t.now l m (dots_of mine) (dots_of yours) x y es fs result }
{
    let p = entrywalk::head(s, x.own, l.third);
    let q = entrywalk::head(t, y.own, m.third);
    if p < q {
        let a = alone(s, l, x, yours);
        let e = a.entry;
        let none = entrywalk::none_at(e.key, y);
        let keep = a.keep;
        let gone = a.gone;
        return Coming {
            x: e,
            y: none,
            keep,
            gone,
        };
    }
    if q < p {
        let a = alone(t, m, y, mine);
        let e = a.entry;
        let none = entrywalk::none_at(e.key, x);
        let keep = a.keep;
        let gone = a.gone;
        return Coming {
            x: none,
            y: e,
            keep,
            gone,
        };
    }
    let e = entrywalk::entry_at(s, l, x);
    let f = entrywalk::entry_at(t, m, y);
    let kept = meet(s, e, t, f, mine, yours);
    let keep = kept.keep;
    let gone = kept.gone;
    Coming {
        x: e,
        y: f,
        keep,
        gone,
    }
}
