// Both validations, on images where they lie.
ghost use Rattle.std.specs.Prelude.{◌≡◌};
ghost use Rattle.clock.specs.Dots.{dots_of};
ghost use Rattle.entries.specs.declared.Entry.{Entry};
ghost use Rattle.entries.specs.Model.{dots_in};
ghost use Rattle.keyed.specs.declared.Stop.{Stop};
ghost use Rattle.asking.specs.declared.CvRDTValidation.{CvRDTValidation};
ghost use Rattle.map.specs.Model.{entries_in};
ghost use Rattle.asking.specs.Asking.{validate_op, spent_under, first_spent, validate_merge};
ghost use Rattle.maprecords.specs.Related.{read_map};
ghost use Rattle.layout.specs.Whole.{Lies, LaidOut};

use asking::{CmRDTValidation, CvRDTValidation};
use clock::Clock;
use keyed::Stop;
use layout::Laid;
use map::Op;
use walks::Layout;

// Whether an operation fits a map.
pub fn order_of(map: &[u8], l: Laid, op: Op) -> CmRDTValidation
    requires { LaidOut map.now (read_map map.now).map l }
    ensures { result ≡ validate_op (read_map map.now).map op }
{
    if op.up {
        let u = op.update;
        let held = keyed::clock_at(map, l.layout, u.key);
        return asking::follow(l.clock, held, u.dot);
    }
    CmRDTValidation::Fits
}

// What is spent twice at the first of an image's entries, in the order of keys, at which something is.
fn first_twice<F: Fn(Stop) -> CvRDTValidation>(image: &[u8], l: Layout, spent: F) -> CvRDTValidation
    requires callable { F.IsAlwaysCallable spent }
    requires lies { Lies image.now (read_map image.now).map l }
    ensures { (f : Entry → CvRDTValidation) → ((e : Entry) (x : Stop) (p : CvRDTValidation) → x.key ≡ e.key → dots_of x.clock ≡ dots_in e
        → F.post spent x p → p ≡ f e) → result ≡ first_spent f (entries_in (read_map image.now).map) }
{
    let end = l.third;
    let mut at = l.second;
    // A `while`: an entry has as many dots as the records say.
    while at < end {
        let entry = keyed::stop_at(image, at, end);
        at = entry.next;
        let found = spent(entry);
        if asking::twice(found) {
            return found;
        }
    }
    CvRDTValidation::Once
}

// The first of their entries, in the order of keys, that shares a dot with an entry of ours.
fn spent_among(key: u32, ours: Clock, other: &[u8], l: Layout) -> CvRDTValidation
    requires { Lies other.now (read_map other.now).map l }
    ensures { result ≡ first_spent (λ f. spent_under key (dots_of ours) f.key (dots_in f)) (entries_in (read_map other.now).map) }
{
    first_twice(
        other,
        l,
        |theirs| asking::spent_under(key, ours, theirs.key, theirs.clock),
    )
}

// The first of our entries, in the order of keys, that shares a dot with one of theirs.
pub fn spent_between(map: &[u8], l: Layout, other: &[u8], theirs: Layout) -> CvRDTValidation
    requires { Lies map.now (read_map map.now).map l × Lies other.now (read_map other.now).map theirs }
    ensures { result ≡ validate_merge (read_map map.now).map (read_map other.now).map }
{
    first_twice(
        map,
        l,
        |ours| spent_among(ours.key, ours.clock, other, theirs),
    )
}
