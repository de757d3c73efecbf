// A list of operations that another maker proposes: whether it brings our map to theirs, and which operation is refused.
#![tactic(auto)]

ghost use Rattle.std.specs.Prelude.{◌≡◌, ◌*◌, ◌^◌, ◌≤◌, length, take};
ghost use Rattle.mapimage.specs.MapImage.{map_longest};
ghost use Rattle.promises.specs.CatchUp.{outcome_of, same_bytes};
ghost use Rattle.promises.specs.Promises.{CatchUpPromise, CatchUpPlacePromise};
ghost use Rattle.catchup.specs.Walking.{Stepped, RanAs, Arrived, Judges};

use refusals::Refusal;

// The bytes of the longest map.
pub const LONGEST: usize = 28800;

// The most operations of a list.
pub const OPERATIONS: usize = 32;

// What the operations came to: the word and the place of a refusal, or 0, 0 and the length of the last image.
#[derive(Clone, Copy)]
pub struct Ran {
    pub word: u64,
    pub place: u64,
    pub len: usize,
}

// What both calls answer.
#[derive(Clone, Copy)]
pub struct Verdict {
    pub word: u64,
    pub place: u64,
}

// One operation on the map whose image is the first `len` bytes of `here`, by way of `there`.
fn step(here: &mut [u8], len: usize, op: &[u8], there: &mut [u8]) -> u64
    requires { (len ≤ map_longest) × ((length here.old ≡ map_longest) × (length there.old ≡ map_longest)) }
    ensures { Stepped (take len here.old) op.now here.new result }
{
    let w = changing::apply(&here[0..len], op, there);
    if w < 0x1_0000_0000 {
        let n = w as usize;
        runs::copy_run(&there[0..n], here, 0);
    }
    w
}

// The operations of a list one after the other, on the map whose image is the first `len` bytes of `here`.
fn run(here: &mut [u8], len: usize, list: &[u8], there: &mut [u8]) -> Ran
    requires { (len ≤ map_longest) × ((length here.old ≡ map_longest) × (length there.old ≡ map_longest)) }
    ensures { RanAs (outcome_of (take len here.old) list.now) here.new result }
{
    let n = list.len();
    let mut left = len;
    let mut at: usize = 0;
    let mut place: u64 = 0;
    // A `while`: where an operation ends stands in the list.
    while at < n {
        let next = operations::operation_end(list, at);
        let w = step(here, left, &list[at..next], there);
        if 0x1_0000_0000 <= w {
            return Ran {
                word: w,
                place,
                len: 0,
            };
        }
        left = w as usize;
        at = next;
        place += 1;
    }
    Ran {
        word: 0,
        place: 0,
        len: left,
    }
}

fn same_bytes(a: &[u8], b: &[u8]) -> bool
    ensures { result ≡ same_bytes a.now b.now }
{
    a == b
}

// The operations on a copy of our map, and whether they end in theirs.
fn arrive(map: &[u8], other: &[u8], list: &[u8]) -> Verdict
    requires { length map.now ≤ map_longest }
    ensures { Arrived map.now other.now list.now result }
{
    let mut here = [0u8; LONGEST];
    let mut there = [0u8; LONGEST];
    let n = runs::copy_run(map, &mut here, 0);
    let ran = run(&mut here, n, list, &mut there);
    let place = ran.place;
    if ran.word != 0 {
        return Verdict {
            word: ran.word,
            place,
        };
    }
    let len = ran.len;
    if same_bytes(&here[0..len], other) {
        return Verdict { word: 0, place };
    }
    Verdict {
        word: answers::told(Err(Refusal::EndsElsewhere)),
        place,
    }
}

fn refused(number: u8) -> Verdict
    ensures { (result.word ≡ number * 2 ^ 32) × (result.place ≡ 0) }
{
    Verdict {
        word: answers::word(number),
        place: 0,
    }
}

fn judge(map: &[u8], other: &[u8], list: &[u8]) -> Verdict
    ensures { Judges map.now other.now list.now result }
{
    let a = layout::lay_out(map);
    if a.number != 0 {
        return refused(a.number);
    }
    let b = layout::lay_out(other);
    if b.number != 0 {
        return refused(b.number);
    }
    if OPERATIONS < operations::count_operations(list) {
        return refused(Refusal::TooManyOperations.number());
    }
    arrive(map, other, list)
}

// Whether the list brings our map to theirs.
pub fn catch_up(map: &[u8], other: &[u8], list: &[u8]) -> u64
    ensures { CatchUpPromise map.now other.now list.now result }
{
    let v = judge(map, other, list);
    v.word
}

// The place of the operation that is refused.
pub fn catch_up_place(map: &[u8], other: &[u8], list: &[u8]) -> u64
    ensures { CatchUpPlacePromise map.now other.now list.now result }
{
    let v = judge(map, other, list);
    v.place
}
