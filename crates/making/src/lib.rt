// The three calls that make an operation: an update, and a removal of one key.
#![tactic(auto)]

ghost use Rattle.promises.specs.Promises.{UpdatePromise, RmGetPromise, RmReadCtxPromise};

use asking::ReadCtx;
use register::Content;

pub fn update(map: &[u8], actor: u16, key: u32, value: u64, origin: u16, out: &mut [u8]) -> u64
    ensures { UpdatePromise map.now actor key value origin out.old out.new result }
{
    let l = layout::lay_out(map);
    if l.number != 0 {
        return answers::word(l.number);
    }
    let clock = l.clock;
    let ctx = ReadCtx {
        add_clock: clock,
        rm_clock: clock,
    };
    let content = Content {
        number: value,
        origin,
    };
    let made = ctx.derive_add_ctx(actor).update(key, content);
    if made.number != 0 {
        return answers::word(made.number);
    }
    answers::told(answers::give_op(Ok(made.op), out))
}

pub fn rm_get(map: &[u8], key: u32, out: &mut [u8]) -> u64
    ensures { RmGetPromise map.now key out.old out.new result }
{
    let l = layout::lay_out(map);
    if l.number != 0 {
        return answers::word(l.number);
    }
    let held = keyed::clock_at(map, l.layout, key);
    answers::told(answers::give_op(Ok(asking::rm(held, key)), out))
}

pub fn rm_read_ctx(map: &[u8], key: u32, out: &mut [u8]) -> u64
    ensures { RmReadCtxPromise map.now key out.old out.new result }
{
    let l = layout::lay_out(map);
    if l.number != 0 {
        return answers::word(l.number);
    }
    answers::told(answers::give_op(Ok(asking::rm(l.clock, key)), out))
}
