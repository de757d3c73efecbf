// Replays a sample of the oracle's answers: makes each call of the file on the file's images, those that change a map also in their plain
// form, and counts the answers that differ from the file's.
#![tactic(auto)]

mod calls;

ghost use Rattle.std.specs.Prelude.{◌≡◌, length};

use questions::{BUFFER, Image, Question, Reader};
use std::io;
use tally::Tally;

// Every byte of an output buffer before a call.
const PAINT: u8 = 165;

// One case: the call into a painted buffer, and whether the word and every byte of the buffer are as the file says.
fn agrees(asked: &Question, first: &Image, second: &Image, wanted: &Image) -> bool {
    let mut out = [PAINT; BUFFER];
    let word = calls::ask(asked, first, second, &mut out);
    word == asked.word && out == wanted.buffer
}

fn replay(rt: &impl Print, file: &[u8]) -> io::Result<()> {
    let mut reader = Reader::new(file);
    let mut tally = Tally::new();
    let mut first = Image::painted(0);
    let mut second = Image::painted(0);
    let cases = reader.number() % 65536;
    for case in 1..=cases {
        let asked = reader.question();
        if asked.fresh {
            reader.image(&mut first);
            reader.image(&mut second);
        }
        let mut wanted = Image::painted(PAINT);
        reader.image(&mut wanted);
        if tally::answers_number(asked.call) {
            tally.count_number(asked.number);
        }
        tally.count_case(asked.call, case, agrees(&asked, &first, &second, &wanted));
        if let Some(call) = tally::plain_form(asked.call) {
            let plain = Question { call, ..asked };
            tally.count_case(call, case, agrees(&plain, &first, &second, &wanted));
        }
    }
    tally.print(rt)
}

// The longest file.
const LONGEST: usize = 524288;

// One byte more than the file may have is read, so that a longer one is seen to be longer.
const ROOM: usize = LONGEST + 1;

// Zeros. The contract says their number alone, so that no proof above writes them out.
fn room() -> [u8; ROOM]
    ensures { 524289 ≡ length result }
{
    [0u8; ROOM]
}

fn main(rt: HostRuntime) -> io::Result<()> {
    let mut space = room();
    let n = input::read_full(&mut rt.stdin(), &mut space);
    let file = &space[..n];
    replay(&rt, file)?;
    println!(rt; "file of {n} bytes, adler-32 {}", questions::sum(file))
}
