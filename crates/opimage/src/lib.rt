// Images of operations: read and written.
#![tactic(auto)]

ghost use Rattle.std.specs.Prelude.{◌≡◌, true, cond, List, [], ◌∷◌, ◌++◌, map, ℕ, ◌+◌, ◌*◌, ◌≤◌, ◌<◌, min, length, get_or, set};
ghost use Rattle.limits.specs.Limits.{key_limit};
ghost use Rattle.removals.specs.Model.{keys_of, keys_as};
ghost use Rattle.records.specs.declared.Record.{Record};
ghost use Rattle.records.specs.Records.{bytes_of};
ghost use Rattle.records.specs.Writing.{Wrote};
ghost use Rattle.records.specs.Kinds.{removal_kind, put_dot_kind};
ghost use Rattle.opimage.specs.OpImage.{key_record, removal_records, update_records, op_image, removes, updates, judged_op, op_reading, read_op};
ghost use Rattle.opimage.specs.SoFar.{OpParts, OpSoFar};
ghost use Rattle.scan.specs.Scanned.{Scanned};

use clock::{Clock, Dot};
use entries::Update;
use limits::{DOTS, KEYS};
use map::Op;
use records::{PUT_DOT, PUT_VALUE, REMOVAL, REMOVAL_DOT, REMOVAL_KEY, Record, UPDATE};
use refusals::Refusal;
use register::{Content, Value};
use removals::{Keys, Removal};
use scan::Scan;

// The longest image of an operation.
pub const OP_LONGEST: usize = (1 + DOTS + KEYS) * 16;

// An operation's image so far: it takes one record at a time, and is asked at the end.
#[derive(Clone, Copy)]
pub struct OpReader {
    pub scan: Scan,
    // of each kind none, one, or 2 for many
    pub counts: [u8; 13],
    pub head: Record,
    pub value: Record,
    pub under: Clock,
    pub keys: Keys,
    pub put: Clock,
}

// Writes keys as records of a kind and index; answers the place behind them.
pub fn write_keys(out: &mut [u8], at: usize, kind: u8, index: u8, keys: Keys) -> usize
    requires { at + length (keys_of keys) * 16 ≤ length out.old }
    ensures { Wrote at (bytes_of (map (key_record kind index) (keys_of keys))) out.old out.new result }
{
    let mut next = at;
    for k in keys.as_slice() {
        let r = Record {
            kind,
            index,
            actor: 0,
            key: *k,
            number: 0,
        };
        next = records::write_record(out, next, r);
    }
    next
}

fn write_removal(out: &mut [u8], removal: Removal) -> usize
    requires { length (removal_records removal) * 16 ≤ length out.old }
    ensures { Wrote 0 (bytes_of (removal_records removal)) out.old out.new result }
{
    let head = Record {
        kind: REMOVAL,
        index: 0,
        actor: 0,
        key: 0,
        number: 0,
    };
    let clock = removal.clock;
    let keys = removal.keys;
    let first = records::write_record(out, 0, head);
    let second = clockimage::write_dots(out, first, REMOVAL_DOT, 0, 0, clock);
    write_keys(out, second, REMOVAL_KEY, 0, keys)
}

fn write_update(out: &mut [u8], update: Update) -> usize
    requires { length (update_records update) * 16 ≤ length out.old }
    ensures { Wrote 0 (bytes_of (update_records update)) out.old out.new result }
{
    let dot = update.dot;
    let put = update.put;
    let clock = put.clock;
    let head = Record {
        kind: UPDATE,
        index: 0,
        actor: dot.actor,
        key: update.key,
        number: dot.counter,
    };
    let content = put.value;
    let value = Record {
        kind: PUT_VALUE,
        index: 0,
        actor: content.origin,
        key: 0,
        number: content.number,
    };
    let first = records::write_record(out, 0, head);
    let second = records::write_record(out, first, value);
    clockimage::write_dots(out, second, PUT_DOT, 0, 0, clock)
}

// Writes the image of an operation at the start of `out`; answers its length.
pub fn write_op(op: Op, out: &mut [u8]) -> usize
    requires { length (op_image op) ≤ length out.old }
    ensures { Wrote 0 (op_image op) out.old out.new result }
{
    if op.up {
        let update = op.update;
        return write_update(out, update);
    }
    let removal = op.removal;
    write_removal(out, removal)
}

// The keys with the key of a record behind the last, where `more` is set.
fn keys_with(keys: Keys, more: bool, r: Record) -> Keys
    requires { more ≡ true → keys.len < key_limit }
    ensures { (l : List ℕ) → keys ≡ keys_as l → result ≡ keys_as (cond more (l ++ (r.key ∷ [])) l) }
{
    if more {
        return keys.push(r.key);
    }
    keys
}

// Of each kind none, one, or 2 for many, with one more of a kind.
fn counted(counts: [u8; 13], kind: u8) -> [u8; 13]
    requires { kind < 13 }
    ensures { result ≡ set counts kind (min 2 (get_or counts kind 0 + 1)) }
{
    let mut next = counts;
    let k = kind as usize;
    if counts[k] < 2 {
        next[k] = counts[k] + 1;
    } else {
        next[k] = 2;
    }
    next
}

fn latest(old: Record, more: bool, r: Record) -> Record
    ensures { result ≡ cond more r old }
{
    if more { r } else { old }
}

fn removes(counts: [u8; 13]) -> bool
    ensures { result ≡ removes (λ k. get_or counts k 0) }
{
    (counts[REMOVAL as usize] == 1)
        & ((counts[UPDATE as usize] == 0)
            & ((counts[PUT_VALUE as usize] == 0) & (counts[PUT_DOT as usize] == 0)))
}

fn updates(counts: [u8; 13]) -> bool
    ensures { result ≡ updates (λ k. get_or counts k 0) }
{
    (counts[UPDATE as usize] == 1)
        & ((counts[PUT_VALUE as usize] == 1)
            & ((counts[REMOVAL as usize] == 0)
                & ((counts[REMOVAL_DOT as usize] == 0) & (counts[REMOVAL_KEY as usize] == 0))))
}

impl OpReader {
    pub fn new() -> OpReader
        ensures { OpSoFar [] result }
    {
        let scan = Scan::new();
        let none = Clock::new();
        let keys = Keys::new();
        let head = Record {
            kind: 0,
            index: 0,
            actor: 0,
            key: 0,
            number: 0,
        };
        OpReader {
            scan,
            counts: [0; 13],
            head,
            value: head,
            under: none,
            keys,
            put: none,
        }
    }

    // The parts with a record that nothing is wrong with so far.
    fn with(self, scan: Scan, r: Record) -> OpReader
        requires { scan.number ≡ 0 × ((l : List Record) × (OpParts l self × Scanned removal_kind put_dot_kind (l ++ (r ∷ [])) scan)) }
        ensures { (l : List Record) → OpParts l self → Scanned removal_kind put_dot_kind (l ++ (r ∷ [])) scan → OpSoFar (l ++ (r ∷ [])) result }
    {
        let counts0 = self.counts;
        let under0 = self.under;
        let keys0 = self.keys;
        let put0 = self.put;
        let head0 = self.head;
        let value0 = self.value;
        let counts = counted(counts0, r.kind);
        let head = latest(head0, r.kind == UPDATE, r);
        let value = latest(value0, r.kind == PUT_VALUE, r);
        let under = clockimage::clock_with(under0, r.kind == REMOVAL_DOT, r);
        let keys = keys_with(keys0, r.kind == REMOVAL_KEY, r);
        let put = clockimage::clock_with(put0, r.kind == PUT_DOT, r);
        OpReader {
            scan,
            counts,
            head,
            value,
            under,
            keys,
            put,
        }
    }

    // One record more.
    pub fn take(self, r: Record) -> OpReader
        requires { (l : List Record) × OpSoFar l self }
        ensures { (l : List Record) → OpSoFar l self → OpSoFar (l ++ (r ∷ [])) result }
    {
        let before = self.scan;
        let scan = before.take(REMOVAL, PUT_DOT, r, 0);
        if scan.number == 0 {
            return self.with(scan, r);
        }
        let mut next = self;
        next.scan = scan;
        next
    }

    // What the records are as a whole.
    pub fn verdict(self) -> Result<Op, Refusal>
        ensures { (l : List Record) → OpSoFar l self → op_reading result ≡ judged_op l }
    {
        scan::verdict(self.scan.number)?;
        let counts = self.counts;
        let up = updates(counts);
        if removes(counts) | up {
            let under = self.under;
            let keys = self.keys;
            let head = self.head;
            let clock = self.put;
            let removal = Removal { clock: under, keys };
            let dot = Dot {
                actor: head.actor,
                counter: head.number,
            };
            let given = self.value;
            let value = Content {
                number: given.number,
                origin: given.actor,
            };
            let put = Value { clock, value };
            let update = Update {
                dot,
                key: head.key,
                put,
            };
            let op = Op {
                up: counts[UPDATE as usize] == 1,
                removal,
                update,
            };
            return Ok(op);
        }
        Err(Refusal::Unrelated)
    }
}

pub fn read_op(bytes: &[u8]) -> Result<Op, Refusal>
    ensures { op_reading result ≡ read_op bytes.now }
{
    let len = bytes.len();
    if OP_LONGEST < len {
        return Err(Refusal::OverLimit);
    }
    if len % 16 != 0 {
        return Err(Refusal::Malformed);
    }
    let mut reader = OpReader::new();
    for i in 0..len / 16 {
        let r = records::read_record(bytes, i * 16);
        reader = reader.take(r);
    }
    reader.verdict()
}
