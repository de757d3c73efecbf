// Both validations and the guard over images, and the numbers that they and the count carry.
#![tactic(auto)]

ghost use Rattle.std.specs.Prelude.{◌≡◌};
ghost use Rattle.asking.specs.Asking.{order_number, order_start, order_end, spent_number};
ghost use Rattle.promises.specs.Calls.{spent_actor, spent_counter, spent_ours, spent_theirs};
ghost use Rattle.promises.specs.Promises.{LenCountPromise};
ghost use Rattle.readiness.specs.Ready.{ready_number, ready_actor, ready_counter};
ghost use Rattle.verdicts.specs.Verdicts.{op_verdict, merge_verdict, ready_verdict};

use asking::{CmRDTValidation, CvRDTValidation};
use readiness::Readiness;
use refusals::Refusal;

// What `validate_op` says of two images: where one is refused, its number alone.
#[derive(Clone, Copy)]
pub struct OpVerdict {
    pub number: u8,
    pub order: CmRDTValidation,
}

// What `validate_merge` says of two images.
#[derive(Clone, Copy)]
pub struct MergeVerdict {
    pub number: u8,
    pub spent: CvRDTValidation,
}

// What the guard says of two images.
#[derive(Clone, Copy)]
pub struct ReadyVerdict {
    pub number: u8,
    pub ready: Readiness,
}

fn order_number(o: CmRDTValidation) -> u8
    ensures { result ≡ order_number o }
{
    match o {
        CmRDTValidation::Fits => 0,
        CmRDTValidation::Missing(_, _) => Refusal::Gap.number(),
    }
}

pub fn order_start(o: CmRDTValidation) -> u64
    ensures { result ≡ order_start o }
{
    match o {
        CmRDTValidation::Fits => 0,
        CmRDTValidation::Missing(start, _) => start,
    }
}

pub fn order_end(o: CmRDTValidation) -> u64
    ensures { result ≡ order_end o }
{
    match o {
        CmRDTValidation::Fits => 0,
        CmRDTValidation::Missing(_, end) => end,
    }
}

fn spent_number(s: CvRDTValidation) -> u8
    ensures { result ≡ spent_number s }
{
    match s {
        CvRDTValidation::Once => 0,
        CvRDTValidation::Twice(_, _, _) => Refusal::DoubleSpent.number(),
    }
}

pub fn spent_actor(s: CvRDTValidation) -> u64
    ensures { result ≡ spent_actor s }
{
    match s {
        CvRDTValidation::Once => 0,
        CvRDTValidation::Twice(d, _, _) => d.actor as u64,
    }
}

pub fn spent_counter(s: CvRDTValidation) -> u64
    ensures { result ≡ spent_counter s }
{
    match s {
        CvRDTValidation::Once => 0,
        CvRDTValidation::Twice(d, _, _) => d.counter,
    }
}

pub fn spent_ours(s: CvRDTValidation) -> u64
    ensures { result ≡ spent_ours s }
{
    match s {
        CvRDTValidation::Once => 0,
        CvRDTValidation::Twice(_, k, _) => k as u64,
    }
}

pub fn spent_theirs(s: CvRDTValidation) -> u64
    ensures { result ≡ spent_theirs s }
{
    match s {
        CvRDTValidation::Once => 0,
        CvRDTValidation::Twice(_, _, h) => h as u64,
    }
}

fn ready_number(g: Readiness) -> u8
    ensures { result ≡ ready_number g }
{
    match g {
        Readiness::Next => 0,
        Readiness::Foreign => Refusal::Foreign.number(),
        Readiness::Seen => Refusal::Seen.number(),
        Readiness::Hold(_, _) => Refusal::Hold.number(),
    }
}

pub fn ready_actor(g: Readiness) -> u64
    ensures { result ≡ ready_actor g }
{
    match g {
        Readiness::Next => 0,
        Readiness::Foreign => 0,
        Readiness::Seen => 0,
        Readiness::Hold(actor, _) => actor as u64,
    }
}

pub fn ready_counter(g: Readiness) -> u64
    ensures { result ≡ ready_counter g }
{
    match g {
        Readiness::Next => 0,
        Readiness::Foreign => 0,
        Readiness::Seen => 0,
        Readiness::Hold(_, counter) => counter,
    }
}

pub fn op(map: &[u8], op: &[u8]) -> OpVerdict
    ensures { result ≡ op_verdict map.now op.now }
{
    let l = layout::lay_out(map);
    if l.number != 0 {
        return OpVerdict {
            number: l.number,
            order: CmRDTValidation::Fits,
        };
    }
    match opimage::read_op(op) {
        Ok(o) => {
            let order = direct::validating::order_of(map, l, o);
            OpVerdict {
                number: order_number(order),
                order,
            }
        }
        Err(refusal) => OpVerdict {
            number: refusal.number(),
            order: CmRDTValidation::Fits,
        },
    }
}

pub fn ready(map: &[u8], op: &[u8]) -> ReadyVerdict
    ensures { result ≡ ready_verdict map.now op.now }
{
    let l = layout::lay_out(map);
    if l.number != 0 {
        return ReadyVerdict {
            number: l.number,
            ready: Readiness::Next,
        };
    }
    match opimage::read_op(op) {
        Ok(o) => {
            let ready = readiness::ready(l.clock, o);
            ReadyVerdict {
                number: ready_number(ready),
                ready,
            }
        }
        Err(refusal) => ReadyVerdict {
            number: refusal.number(),
            ready: Readiness::Next,
        },
    }
}

pub fn merge(map: &[u8], other: &[u8]) -> MergeVerdict
    ensures { result ≡ merge_verdict map.now other.now }
{
    let l = layout::lay_out(map);
    if l.number != 0 {
        return MergeVerdict {
            number: l.number,
            spent: CvRDTValidation::Once,
        };
    }
    let o = layout::lay_out(other);
    if o.number != 0 {
        return MergeVerdict {
            number: o.number,
            spent: CvRDTValidation::Once,
        };
    }
    let spent = direct::validating::spent_between(map, l.layout, other, o.layout);
    MergeVerdict {
        number: spent_number(spent),
        spent,
    }
}

// How many entries an image has, 0 where it is refused.
pub fn count(map: &[u8]) -> u64
    ensures { LenCountPromise map.now result }
{
    let l = layout::lay_out(map);
    if l.number != 0 {
        return 0;
    }
    l.entries as u64
}
