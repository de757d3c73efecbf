// A map image from a file, printed a line a record: kind, index, actor, key and number; or only `refused N`.
#![tactic(auto)]

use mapimage::MAP_LONGEST;
use std::io;
use std::io::Read;

// Room for one byte more than the longest image.
const ROOM: usize = MAP_LONGEST + 1;

fn show(rt: &impl Print, map: &[u8]) -> io::Result<()> {
    let refusal = layout::lay_out(map).number;
    if refusal != 0 {
        return println!(rt; "refused {refusal}");
    }
    for i in 0..map.len() / 16 {
        let r = records::read_record(map, i * 16);
        println!(rt; "{} {} {} {} {}", r.kind, r.index, r.actor, r.key, r.number)?;
    }
    Ok(())
}

// One byte more than the longest image is read, so that a longer file is seen to be longer. A file whose end was not
// reached is no image: nothing is printed of it, and standard error says so.
pub fn print_from(rt: &(impl Print + Eprint), file: &mut impl Read) -> io::Result<()> {
    let mut space = [0u8; ROOM];
    match input::read_whole(file, &mut space) {
        Some(n) => show(rt, &space[..n]),
        None => rt.eprintln("mapdump: the input could not be read to its end"),
    }
}
