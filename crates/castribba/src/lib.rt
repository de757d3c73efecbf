// The calls of castribba.h, on images and numbers.
#![tactic(auto)]

ghost use Rattle.promises.specs.Promises.{ApplyPromise, ApplyDeletedPromise, MergePromise, ResetRemovePromise, ResetRemoveDeletedPromise};
ghost use Rattle.promises.specs.Promises.{UpdatePromise, RmGetPromise, RmReadCtxPromise, GetPromise, LenPromise, LenCountPromise, ValidateOpPromise};
ghost use Rattle.promises.specs.Promises.{ValidateOpStartPromise, ValidateOpEndPromise, ValidateMergePromise, ValidateMergeActorPromise};
ghost use Rattle.promises.specs.Promises.{ValidateMergeCounterPromise, ValidateMergeOurKeyPromise, ValidateMergeTheirKeyPromise, ClockAdvancePromise};
ghost use Rattle.promises.specs.Promises.{CatchUpPromise, CatchUpPlacePromise, DifferencesPromise, FloorPromise};
ghost use Rattle.promises.specs.Promises.{PiecesBeginPromise, PiecesTakePromise, PiecesEndPromise};
ghost use Rattle.promises.specs.Ready.{ReadyPromise, ReadyActorPromise, ReadyCounterPromise};

use clock::Clock;
use memory::READER;

#[unsafe(no_mangle)]
pub extern "C" fn castribba_apply(map: &[u8], op: &[u8], out: &mut [u8]) -> u64
    ensures { ApplyPromise map.now op.now out.old out.new result }
{
    changing::apply(map, op, out)
}

#[unsafe(no_mangle)]
pub extern "C" fn castribba_apply_deleted(map: &[u8], op: &[u8], room: usize) -> u64
    ensures { ApplyDeletedPromise map.now op.now room result }
{
    deleted::apply_deleted(map, op, room)
}

#[unsafe(no_mangle)]
pub extern "C" fn castribba_merge(map: &[u8], other: &[u8], out: &mut [u8]) -> u64
    ensures { MergePromise map.now other.now out.old out.new result }
{
    changing::merge(map, other, out)
}

#[unsafe(no_mangle)]
pub extern "C" fn castribba_reset_remove(map: &[u8], clock: &[u8], out: &mut [u8]) -> u64
    ensures { ResetRemovePromise map.now clock.now out.old out.new result }
{
    changing::reset_remove(map, clock, out)
}

#[unsafe(no_mangle)]
pub extern "C" fn castribba_reset_remove_deleted(map: &[u8], clock: &[u8], room: usize) -> u64
    ensures { ResetRemoveDeletedPromise map.now clock.now room result }
{
    deleted::reset_remove_deleted(map, clock, room)
}

#[unsafe(no_mangle)]
pub extern "C" fn castribba_update(
    map: &[u8],
    actor: u16,
    key: u32,
    value: u64,
    origin: u16,
    out: &mut [u8],
) -> u64
    ensures { UpdatePromise map.now actor key value origin out.old out.new result }
{
    making::update(map, actor, key, value, origin, out)
}

#[unsafe(no_mangle)]
pub extern "C" fn castribba_rm_get(map: &[u8], key: u32, out: &mut [u8]) -> u64
    ensures { RmGetPromise map.now key out.old out.new result }
{
    making::rm_get(map, key, out)
}

#[unsafe(no_mangle)]
pub extern "C" fn castribba_rm_read_ctx(map: &[u8], key: u32, out: &mut [u8]) -> u64
    ensures { RmReadCtxPromise map.now key out.old out.new result }
{
    making::rm_read_ctx(map, key, out)
}

#[unsafe(no_mangle)]
pub extern "C" fn castribba_get(map: &[u8], key: u32, out: &mut [u8]) -> u64
    ensures { GetPromise map.now key out.old out.new result }
{
    let l = layout::lay_out(map);
    if l.number != 0 {
        return answers::word(l.number);
    }
    direct::reading::give_key(map, l.layout, key, out)
}

#[unsafe(no_mangle)]
pub extern "C" fn castribba_len(map: &[u8]) -> u64
    ensures { LenPromise map.now result }
{
    let l = layout::lay_out(map);
    answers::word(l.number)
}

#[unsafe(no_mangle)]
pub extern "C" fn castribba_len_count(map: &[u8]) -> u64
    ensures { LenCountPromise map.now result }
{
    verdicts::count(map)
}

#[unsafe(no_mangle)]
pub extern "C" fn castribba_validate_op(map: &[u8], op: &[u8]) -> u64
    ensures { ValidateOpPromise map.now op.now result }
{
    let v = verdicts::op(map, op);
    answers::word(v.number)
}

#[unsafe(no_mangle)]
pub extern "C" fn castribba_validate_op_start(map: &[u8], op: &[u8]) -> u64
    ensures { ValidateOpStartPromise map.now op.now result }
{
    let v = verdicts::op(map, op);
    let o = v.order;
    verdicts::order_start(o)
}

#[unsafe(no_mangle)]
pub extern "C" fn castribba_validate_op_end(map: &[u8], op: &[u8]) -> u64
    ensures { ValidateOpEndPromise map.now op.now result }
{
    let v = verdicts::op(map, op);
    let o = v.order;
    verdicts::order_end(o)
}

// The guard: asked before an update is applied.
#[unsafe(no_mangle)]
pub extern "C" fn castribba_ready(map: &[u8], op: &[u8]) -> u64
    ensures { ReadyPromise map.now op.now result }
{
    let v = verdicts::ready(map, op);
    answers::word(v.number)
}

#[unsafe(no_mangle)]
pub extern "C" fn castribba_ready_actor(map: &[u8], op: &[u8]) -> u64
    ensures { ReadyActorPromise map.now op.now result }
{
    let v = verdicts::ready(map, op);
    let g = v.ready;
    verdicts::ready_actor(g)
}

#[unsafe(no_mangle)]
pub extern "C" fn castribba_ready_counter(map: &[u8], op: &[u8]) -> u64
    ensures { ReadyCounterPromise map.now op.now result }
{
    let v = verdicts::ready(map, op);
    let g = v.ready;
    verdicts::ready_counter(g)
}

#[unsafe(no_mangle)]
pub extern "C" fn castribba_validate_merge(map: &[u8], other: &[u8]) -> u64
    ensures { ValidateMergePromise map.now other.now result }
{
    let v = verdicts::merge(map, other);
    answers::word(v.number)
}

#[unsafe(no_mangle)]
pub extern "C" fn castribba_validate_merge_actor(map: &[u8], other: &[u8]) -> u64
    ensures { ValidateMergeActorPromise map.now other.now result }
{
    let v = verdicts::merge(map, other);
    let s = v.spent;
    verdicts::spent_actor(s)
}

#[unsafe(no_mangle)]
pub extern "C" fn castribba_validate_merge_counter(map: &[u8], other: &[u8]) -> u64
    ensures { ValidateMergeCounterPromise map.now other.now result }
{
    let v = verdicts::merge(map, other);
    let s = v.spent;
    verdicts::spent_counter(s)
}

#[unsafe(no_mangle)]
pub extern "C" fn castribba_validate_merge_our_key(map: &[u8], other: &[u8]) -> u64
    ensures { ValidateMergeOurKeyPromise map.now other.now result }
{
    let v = verdicts::merge(map, other);
    let s = v.spent;
    verdicts::spent_ours(s)
}

#[unsafe(no_mangle)]
pub extern "C" fn castribba_validate_merge_their_key(map: &[u8], other: &[u8]) -> u64
    ensures { ValidateMergeTheirKeyPromise map.now other.now result }
{
    let v = verdicts::merge(map, other);
    let s = v.spent;
    verdicts::spent_theirs(s)
}

// Whether a list of operations brings our map to theirs.
#[unsafe(no_mangle)]
pub extern "C" fn castribba_catch_up(map: &[u8], other: &[u8], list: &[u8]) -> u64
    ensures { CatchUpPromise map.now other.now list.now result }
{
    catchup::catch_up(map, other, list)
}

// The place of the operation that is refused.
#[unsafe(no_mangle)]
pub extern "C" fn castribba_catch_up_place(map: &[u8], other: &[u8], list: &[u8]) -> u64
    ensures { CatchUpPlacePromise map.now other.now list.now result }
{
    catchup::catch_up_place(map, other, list)
}

// The lent clock, advanced in place by one dot; where the dot takes no effect nothing is stored.
#[unsafe(no_mangle)]
pub extern "C" fn castribba_clock_advance(clock: &mut Clock, actor: u16, counter: u64) -> u64
    ensures { ClockAdvancePromise clock.old actor counter clock.new result }
{
    let was = *clock;
    let a = advance::advance(was, actor, counter);
    if a.grew {
        *clock = a.clock;
    }
    a.word
}

// A map's image that comes in pieces: the lent reader is open, and has taken nothing.
#[unsafe(no_mangle)]
pub extern "C" fn castribba_pieces_begin(reader: &mut [u8; READER]) -> u64
    ensures { PiecesBeginPromise reader.old reader.new result }
{
    mailbox::begin(reader)
}

// One piece more.
#[unsafe(no_mangle)]
pub extern "C" fn castribba_pieces_take(reader: &mut [u8; READER], piece: &[u8]) -> u64
    ensures { PiecesTakePromise reader.old piece.now reader.new result }
{
    mailbox::take(reader, piece)
}

// The image has ended: what it is answered with as a whole, and the map's image.
#[unsafe(no_mangle)]
pub extern "C" fn castribba_pieces_end(reader: &mut [u8; READER], out: &mut [u8]) -> u64
    ensures { PiecesEndPromise reader.old out.old reader.new out.new result }
{
    delivery::end(reader, out)
}

// What differs between two maps, key by key.
#[unsafe(no_mangle)]
pub extern "C" fn castribba_differences(map: &[u8], other: &[u8], out: &mut [u8]) -> u64
    ensures { DifferencesPromise map.now other.now out.old out.new result }
{
    differing::telling::differences(map, other, out)
}

// The floor of the lent peers' clocks, stored where none of them is bad.
#[unsafe(no_mangle)]
pub extern "C" fn castribba_floor(peers: &[Clock], floor: &mut Clock) -> u64
    ensures { FloorPromise peers.now floor.old floor.new result }
{
    let mut f = flooring::begin(peers.len());
    let n = f.many;
    for peer in &peers[..n] {
        f = flooring::next(f, *peer);
    }
    if f.word == 0 {
        *floor = f.clock;
    }
    f.word
}
