// The calls of castribba.h, by their number in the file, and behind them the plain form of those that change a map.
use questions::{BUFFER, Image, Question};

// What `castribba_clock_advance` stores back, by value.
fn advance(asked: &Question, lent: &Image, out: &mut [u8; BUFFER]) -> u64 {
    let a = advance::advance(
        questions::lent_clock(&lent.buffer),
        asked.actor,
        asked.value,
    );
    questions::write_lent_clock(out, a.clock);
    a.word
}

fn ask_within(asked: &Question, first: &[u8], second: &[u8], out: &mut [u8]) -> u64 {
    match asked.call {
        1 => castribba::castribba_apply(first, second, out),
        2 => castribba::castribba_merge(first, second, out),
        3 => castribba::castribba_reset_remove(first, second, out),
        4 => castribba::castribba_update(
            first,
            asked.actor,
            asked.key,
            asked.value,
            asked.origin,
            out,
        ),
        5 => castribba::castribba_rm_get(first, asked.key, out),
        6 => castribba::castribba_rm_read_ctx(first, asked.key, out),
        7 => castribba::castribba_get(first, asked.key, out),
        8 => castribba::castribba_len(first),
        9 => castribba::castribba_len_count(first),
        10 => castribba::castribba_validate_op(first, second),
        11 => castribba::castribba_validate_op_start(first, second),
        12 => castribba::castribba_validate_op_end(first, second),
        13 => castribba::castribba_validate_merge(first, second),
        14 => castribba::castribba_validate_merge_actor(first, second),
        15 => castribba::castribba_validate_merge_counter(first, second),
        16 => castribba::castribba_validate_merge_our_key(first, second),
        17 => castribba::castribba_validate_merge_their_key(first, second),
        19 => castribba::castribba_apply_deleted(first, second, out.len()),
        20 => castribba::castribba_reset_remove_deleted(first, second, out.len()),
        21 => byvalue::apply(first, second, out),
        22 => byvalue::merge(first, second, out),
        23 => byvalue::reset_remove(first, second, out),
        24 => byvalue::counting::apply_deleted(first, second, out.len()),
        _ => byvalue::counting::reset_remove_deleted(first, second, out.len()),
    }
}

// The call on as much of the three buffers as is its own.
pub fn ask(asked: &Question, first: &Image, second: &Image, out: &mut [u8; BUFFER]) -> u64 {
    if asked.call == 18 {
        return advance(asked, first, out);
    }
    let room = asked.room.min(BUFFER);
    ask_within(asked, first.bytes(), second.bytes(), &mut out[..room])
}
