// Reading an input of a bounded length into a buffer.
#![tactic(auto)]

ghost use Rattle.std.specs.Prelude.{◌≤◌, length, take, IfSome};
ghost use Rattle.std.specs.Io.KnownBytes.{Consumes};

use std::io::Read;

// Reads until buf is full, the input ends or a read fails, and returns how many bytes it put at the start of buf.
// Where the input's bytes are known, they are the next of them.
pub fn read_full<R: Read>(input: &mut R, buf: &mut [u8]) -> usize
    ensures within { result ≤ length buf.new }
    ensures bytes { Consumes (R.remaining input.old) (R.remaining input.new) (take result buf.new) }
{
    let mut done = 0;
    // A `while`: each read says how far it came.
    while done < buf.len() {
        match input.read(&mut buf[done..]) {
            Ok(0) => break,
            Ok(n) => done += n,
            Err(_) => break,
        }
    }
    done
}

// Whether an input has ended: a read that fails, as one that brings more, says that it has not.
fn has_ended(input: &mut impl Read) -> bool {
    matches!(input.read(&mut [0u8]), Ok(0))
}

// Reads as `read_full` does, and says how many bytes; none where the input neither filled buf nor could be read to its end.
pub fn read_whole(input: &mut impl Read, buf: &mut [u8]) -> Option<usize>
    ensures { IfSome result (λ n. n ≤ length buf.new) }
{
    let n = read_full(input, buf);
    if n == buf.len() || has_ended(input) {
        Some(n)
    } else {
        None
    }
}
