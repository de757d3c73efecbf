// The archive libcastribba.a: the calls of castribba.h, by the promises of crate castribba.
#![tactic(auto)]

ghost use Rattle.promises.specs.Promises.{ApplyPromise, ApplyDeletedPromise, MergePromise, ResetRemovePromise, ResetRemoveDeletedPromise};
ghost use Rattle.promises.specs.Promises.{UpdatePromise, RmGetPromise, RmReadCtxPromise, GetPromise, LenPromise, LenCountPromise, ValidateOpPromise};
ghost use Rattle.promises.specs.Promises.{ValidateOpStartPromise, ValidateOpEndPromise, ValidateMergePromise, ValidateMergeActorPromise};
ghost use Rattle.promises.specs.Promises.{ValidateMergeCounterPromise, ValidateMergeOurKeyPromise, ValidateMergeTheirKeyPromise, ClockAdvancePromise};
ghost use Rattle.promises.specs.Promises.{CatchUpPromise, CatchUpPlacePromise, DifferencesPromise, FloorPromise};
ghost use Rattle.promises.specs.Promises.{PiecesBeginPromise, PiecesTakePromise, PiecesEndPromise};
ghost use Rattle.promises.specs.Ready.{ReadyPromise, ReadyActorPromise, ReadyCounterPromise};

use clock::Clock;
use memory::READER;

#[unsafe(no_mangle)]
pub extern "C" fn castribba_apply(map: &[u8], op: &[u8], out: &mut [u8]) -> u64
    ensures { ApplyPromise map.now op.now out.old out.new result }
{
    castribba::castribba_apply(map, op, out)
}

#[unsafe(no_mangle)]
pub extern "C" fn castribba_apply_deleted(map: &[u8], op: &[u8], room: usize) -> u64
    ensures { ApplyDeletedPromise map.now op.now room result }
{
    castribba::castribba_apply_deleted(map, op, room)
}

#[unsafe(no_mangle)]
pub extern "C" fn castribba_merge(map: &[u8], other: &[u8], out: &mut [u8]) -> u64
    ensures { MergePromise map.now other.now out.old out.new result }
{
    castribba::castribba_merge(map, other, out)
}

#[unsafe(no_mangle)]
pub extern "C" fn castribba_reset_remove(map: &[u8], clock: &[u8], out: &mut [u8]) -> u64
    ensures { ResetRemovePromise map.now clock.now out.old out.new result }
{
    castribba::castribba_reset_remove(map, clock, out)
}

#[unsafe(no_mangle)]
pub extern "C" fn castribba_reset_remove_deleted(map: &[u8], clock: &[u8], room: usize) -> u64
    ensures { ResetRemoveDeletedPromise map.now clock.now room result }
{
    castribba::castribba_reset_remove_deleted(map, clock, room)
}

#[unsafe(no_mangle)]
pub extern "C" fn castribba_update(
    map: &[u8],
    actor: u16,
    key: u32,
    value: u64,
    origin: u16,
    out: &mut [u8],
) -> u64
    ensures { UpdatePromise map.now actor key value origin out.old out.new result }
{
    castribba::castribba_update(map, actor, key, value, origin, out)
}

#[unsafe(no_mangle)]
pub extern "C" fn castribba_rm_get(map: &[u8], key: u32, out: &mut [u8]) -> u64
    ensures { RmGetPromise map.now key out.old out.new result }
{
    castribba::castribba_rm_get(map, key, out)
}

#[unsafe(no_mangle)]
pub extern "C" fn castribba_rm_read_ctx(map: &[u8], key: u32, out: &mut [u8]) -> u64
    ensures { RmReadCtxPromise map.now key out.old out.new result }
{
    castribba::castribba_rm_read_ctx(map, key, out)
}

#[unsafe(no_mangle)]
pub extern "C" fn castribba_get(map: &[u8], key: u32, out: &mut [u8]) -> u64
    ensures { GetPromise map.now key out.old out.new result }
{
    castribba::castribba_get(map, key, out)
}

#[unsafe(no_mangle)]
pub extern "C" fn castribba_len(map: &[u8]) -> u64
    ensures { LenPromise map.now result }
{
    castribba::castribba_len(map)
}

#[unsafe(no_mangle)]
pub extern "C" fn castribba_len_count(map: &[u8]) -> u64
    ensures { LenCountPromise map.now result }
{
    castribba::castribba_len_count(map)
}

#[unsafe(no_mangle)]
pub extern "C" fn castribba_validate_op(map: &[u8], op: &[u8]) -> u64
    ensures { ValidateOpPromise map.now op.now result }
{
    castribba::castribba_validate_op(map, op)
}

#[unsafe(no_mangle)]
pub extern "C" fn castribba_validate_op_start(map: &[u8], op: &[u8]) -> u64
    ensures { ValidateOpStartPromise map.now op.now result }
{
    castribba::castribba_validate_op_start(map, op)
}

#[unsafe(no_mangle)]
pub extern "C" fn castribba_validate_op_end(map: &[u8], op: &[u8]) -> u64
    ensures { ValidateOpEndPromise map.now op.now result }
{
    castribba::castribba_validate_op_end(map, op)
}

#[unsafe(no_mangle)]
pub extern "C" fn castribba_ready(map: &[u8], op: &[u8]) -> u64
    ensures { ReadyPromise map.now op.now result }
{
    castribba::castribba_ready(map, op)
}

#[unsafe(no_mangle)]
pub extern "C" fn castribba_ready_actor(map: &[u8], op: &[u8]) -> u64
    ensures { ReadyActorPromise map.now op.now result }
{
    castribba::castribba_ready_actor(map, op)
}

#[unsafe(no_mangle)]
pub extern "C" fn castribba_ready_counter(map: &[u8], op: &[u8]) -> u64
    ensures { ReadyCounterPromise map.now op.now result }
{
    castribba::castribba_ready_counter(map, op)
}

#[unsafe(no_mangle)]
pub extern "C" fn castribba_validate_merge(map: &[u8], other: &[u8]) -> u64
    ensures { ValidateMergePromise map.now other.now result }
{
    castribba::castribba_validate_merge(map, other)
}

#[unsafe(no_mangle)]
pub extern "C" fn castribba_validate_merge_actor(map: &[u8], other: &[u8]) -> u64
    ensures { ValidateMergeActorPromise map.now other.now result }
{
    castribba::castribba_validate_merge_actor(map, other)
}

#[unsafe(no_mangle)]
pub extern "C" fn castribba_validate_merge_counter(map: &[u8], other: &[u8]) -> u64
    ensures { ValidateMergeCounterPromise map.now other.now result }
{
    castribba::castribba_validate_merge_counter(map, other)
}

#[unsafe(no_mangle)]
pub extern "C" fn castribba_validate_merge_our_key(map: &[u8], other: &[u8]) -> u64
    ensures { ValidateMergeOurKeyPromise map.now other.now result }
{
    castribba::castribba_validate_merge_our_key(map, other)
}

#[unsafe(no_mangle)]
pub extern "C" fn castribba_validate_merge_their_key(map: &[u8], other: &[u8]) -> u64
    ensures { ValidateMergeTheirKeyPromise map.now other.now result }
{
    castribba::castribba_validate_merge_their_key(map, other)
}

#[unsafe(no_mangle)]
pub extern "C" fn castribba_catch_up(map: &[u8], other: &[u8], list: &[u8]) -> u64
    ensures { CatchUpPromise map.now other.now list.now result }
{
    castribba::castribba_catch_up(map, other, list)
}

#[unsafe(no_mangle)]
pub extern "C" fn castribba_catch_up_place(map: &[u8], other: &[u8], list: &[u8]) -> u64
    ensures { CatchUpPlacePromise map.now other.now list.now result }
{
    castribba::castribba_catch_up_place(map, other, list)
}

#[unsafe(no_mangle)]
pub extern "C" fn castribba_clock_advance(clock: &mut Clock, actor: u16, counter: u64) -> u64
    ensures { ClockAdvancePromise clock.old actor counter clock.new result }
{
    castribba::castribba_clock_advance(clock, actor, counter)
}

#[unsafe(no_mangle)]
pub extern "C" fn castribba_pieces_begin(reader: &mut [u8; READER]) -> u64
    ensures { PiecesBeginPromise reader.old reader.new result }
{
    castribba::castribba_pieces_begin(reader)
}

#[unsafe(no_mangle)]
pub extern "C" fn castribba_pieces_take(reader: &mut [u8; READER], piece: &[u8]) -> u64
    ensures { PiecesTakePromise reader.old piece.now reader.new result }
{
    castribba::castribba_pieces_take(reader, piece)
}

#[unsafe(no_mangle)]
pub extern "C" fn castribba_pieces_end(reader: &mut [u8; READER], out: &mut [u8]) -> u64
    ensures { PiecesEndPromise reader.old out.old reader.new out.new result }
{
    castribba::castribba_pieces_end(reader, out)
}

#[unsafe(no_mangle)]
pub extern "C" fn castribba_differences(map: &[u8], other: &[u8], out: &mut [u8]) -> u64
    ensures { DifferencesPromise map.now other.now out.old out.new result }
{
    castribba::castribba_differences(map, other, out)
}

#[unsafe(no_mangle)]
pub extern "C" fn castribba_floor(peers: &[Clock], floor: &mut Clock) -> u64
    ensures { FloorPromise peers.now floor.old floor.new result }
{
    castribba::castribba_floor(peers, floor)
}
