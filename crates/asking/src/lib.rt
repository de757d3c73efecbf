// What is asked of a map without changing it: the validations, making an operation, reading a key, the count.
// The Rust's methods of a map are functions of a map here: an `impl` stands in its type's crate.
#![tactic(auto)]

ghost use Rattle.std.specs.Prelude.{◌≡◌, true, false, [], ◌∷◌, ◌≤◌, ◌<◌, ◌+◌, eqb, ltb};
ghost use Rattle.asking.specs.declared.CmRDTValidation.TheVariants.{Fits, Missing};
ghost use Rattle.clock.specs.Dots.{dots_of};
ghost use Rattle.limits.specs.Limits.{entry_limit};
ghost use Rattle.entries.specs.Model.{entries_of, no_update};
ghost use Rattle.removals.specs.Model.{keys_as};
ghost use Rattle.asking.specs.Asking.{following, validate_update, validate_op, spent_under, spent_by, first_spent, validate_merge, is_twice};
ghost use Rattle.asking.specs.Asking.{make_update, removal_op, clock_at, read_key, count};
ghost use Rattle.map.specs.Model.{seen_by, no_op};
ghost use Rattle.map.specs.Valid.{Within};

pub mod contexts;

use clock::{Clock, Dot};
use entries::{Entries, Entry, Update};
use map::{Map, Op};
use register::{Content, Value};
use removals::{Keys, Removal, Waiting};

// What `validate_op` says: the update fits, or counters are missing before it.
#[derive(Clone, Copy)]
pub enum CmRDTValidation {
    Fits,
    Missing(u64, u64),
}

// What `validate_merge` says: no dot is spent twice, or this one is, under these keys.
#[derive(Clone, Copy)]
pub enum CvRDTValidation {
    Once,
    Twice(Dot, u32, u32),
}

// An operation made of a map, or why it can't be made, with a zero operation.
#[derive(Clone, Copy)]
pub struct Made {
    pub number: u8,
    pub op: Op,
}

// What a reader of a map carries along: the clock to add under, and the clock to remove under.
#[derive(Clone, Copy)]
pub struct ReadCtx {
    pub add_clock: Clock,
    pub rm_clock: Clock,
}

// What an update is made with: the next dot of an actor and the clock with it, or why it can't be made, with zeros.
#[derive(Clone, Copy)]
pub struct AddCtx {
    pub number: u8,
    pub clock: Clock,
    pub dot: Dot,
}

// Whether a counter is more than one above another.
fn too_high(counter: u64, above: u64) -> bool
    ensures { result ≡ ltb (above + 1) counter }
{
    if above < counter {
        1 < counter - above
    } else {
        false
    }
}

// The counters from the one after `above` to this one are missing.
fn missing(counter: u64, above: u64) -> CmRDTValidation
    requires { above < counter }
    ensures { result ≡ Missing (above + 1) counter }
{
    CmRDTValidation::Missing(above + 1, counter)
}

// A dot held against the map clock's counter, then the entry clock's: the first that it is more than one above.
pub fn follow(seen: Clock, held: Clock, d: Dot) -> CmRDTValidation
    ensures { result ≡ following (dots_of seen) d (following (dots_of held) d Fits) }
{
    let s = seen.get(d.actor);
    if too_high(d.counter, s) {
        return missing(d.counter, s);
    }
    let h = held.get(d.actor);
    if too_high(d.counter, h) {
        return missing(d.counter, h);
    }
    CmRDTValidation::Fits
}

// Whether a dot was found.
pub fn twice(s: CvRDTValidation) -> bool
    ensures { result ≡ is_twice s }
{
    match s {
        CvRDTValidation::Once => false,
        CvRDTValidation::Twice(_, _, _) => true,
    }
}

// The first dot of ours, under our key, that theirs under a different key has at the same counter.
pub fn spent_under(key: u32, ours: Clock, other: u32, theirs: Clock) -> CvRDTValidation
    ensures { result ≡ spent_under key (dots_of ours) other (dots_of theirs) }
{
    if key == other {
        return CvRDTValidation::Once;
    }
    for d in ours.as_slice() {
        if theirs.get(d.actor) == d.counter {
            return CvRDTValidation::Twice(*d, key, other);
        }
    }
    CvRDTValidation::Once
}

// The same of two entries.
fn spent_by(ours: Entry, theirs: Entry) -> CvRDTValidation
    ensures { result ≡ spent_by ours theirs }
{
    spent_under(ours.key, ours.clock, theirs.key, theirs.clock)
}

// The first of their entries, in the order of keys, that shares a dot with our entry.
fn spent_among(ours: Entry, theirs: Entries) -> CvRDTValidation
    ensures { result ≡ first_spent (spent_by ours) (entries_of theirs) }
{
    for f in theirs.as_slice() {
        let s = spent_by(ours, *f);
        if twice(s) {
            return s;
        }
    }
    CvRDTValidation::Once
}

// The Rust's `validate_op`: a removal passes.
pub fn validate_op(map: Map, op: Op) -> CmRDTValidation
    ensures { result ≡ validate_op map op }
{
    if op.up {
        return validate_update(map, op.update);
    }
    CmRDTValidation::Fits
}

// An update held against the map clock and the clock of its key's entry.
fn validate_update(map: Map, u: Update) -> CmRDTValidation
    ensures { result ≡ validate_update map u }
{
    let e = map.entries.at(u.key);
    follow(map.clock, e.clock, u.dot)
}

// The Rust's `validate_merge`: by our key, their key, then actor.
pub fn validate_merge(map: Map, other: Map) -> CvRDTValidation
    ensures { result ≡ validate_merge map other }
{
    let ours = map.entries;
    let theirs = other.entries;
    for e in ours.as_slice() {
        let s = spent_among(*e, theirs);
        if twice(s) {
            return s;
        }
    }
    CvRDTValidation::Once
}

// The map clock and the entry of a key alone.
pub fn get(map: Map, key: u32) -> Map
    ensures { result ≡ read_key map key }
{
    let clock = map.clock;
    let entries = map.entries.only(key);
    let waiting = Waiting::new();
    Map {
        clock,
        entries,
        waiting,
    }
}

// The number of entries.
pub fn len(map: Map) -> usize
    ensures { (result ≡ count map) × (result ≤ entry_limit) }
{
    map.entries.size()
}

pub fn is_empty(map: Map) -> bool
    ensures { result ≡ eqb (count map) 0 }
{
    len(map) == 0
}

// An update of a key by an actor, under the context that the map clock gives.
pub fn update(map: Map, actor: u16, key: u32, value: Content) -> Made
    ensures { result ≡ make_update map actor key value }
{
    let ctx = contexts::read_ctx(map).derive_add_ctx(actor);
    ctx.update(key, value)
}

// A removal of a key under its entry clock, the empty clock where there is no entry.
pub fn rm_get(map: Map, key: u32) -> Op
    requires { Within map }
    ensures { result ≡ removal_op (clock_at map key) key }
{
    let e = map.entries.at(key);
    rm(e.clock, key)
}

// A removal of a key under the map clock.
pub fn rm_read_ctx(map: Map, key: u32) -> Op
    requires { Within map }
    ensures { result ≡ removal_op (seen_by map) key }
{
    rm(map.clock, key)
}

// A removal of one key under a clock: the Rust's `rm`.
pub fn rm(clock: Clock, key: u32) -> Op
    ensures { result ≡ record { up = false; removal = record { clock = clock; keys = keys_as (key ∷ []) }; update = no_update } }
{
    let keys = Keys::new().push(key);
    let removal = Removal { clock, keys };
    let none = no_op();
    let update = none.update;
    Op {
        up: false,
        removal,
        update,
    }
}

// The operation of zeros.
fn no_op() -> Op
    ensures { result ≡ no_op }
{
    let removal = Removal::new();
    let clock = Clock::new();
    let put = Value {
        clock,
        value: Content {
            number: 0,
            origin: 0,
        },
    };
    let dot = Dot {
        actor: 0,
        counter: 0,
    };
    let update = Update { dot, key: 0, put };
    Op {
        up: false,
        removal,
        update,
    }
}

impl Made {
    fn refused(number: u8) -> Made
        ensures { result ≡ record { number = number; op = no_op } }
    {
        let op = no_op();
        Made { number, op }
    }
}
