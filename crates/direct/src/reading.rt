// A key read: the map clock's records and those of its entry, copied from where they lie.
ghost use Rattle.std.specs.Prelude.{◌≡◌, ◌+◌, ◌*◌, ◌-◌, ◌≤◌, length};
ghost use Rattle.asking.specs.Asking.{read_key};
ghost use Rattle.records.specs.Records.{bytes_of};
ghost use Rattle.records.specs.Writing.{Wrote};
ghost use Rattle.mapimage.specs.MapImage.{map_image};
ghost use Rattle.maprecords.specs.Related.{read_map};
ghost use Rattle.answers.specs.Answer.{Answered};
ghost use Rattle.layout.specs.Whole.{Lies};
ghost use Rattle.direct.specs.Reading.{Inside, records_at, key_records};

use keyed::Spans;
use walks::{Layout, Span};

fn size(span: Span) -> usize
    requires { span.from ≤ span.to }
    ensures { result ≡ span.to - span.from }
{
    span.to - span.from
}

// Copies the records of a span to `at`, and answers the place behind them.
fn copy_span(s: &[u8], span: Span, out: &mut [u8], at: usize) -> usize
    requires { Inside s.now span × (at + length (records_at s.now span) * 16 ≤ length out.old) }
    ensures { Wrote at (bytes_of (records_at s.now span)) out.old out.new result }
{
    let from = span.from * 16;
    let to = span.to * 16;
    runs::copy_run(&s[from..to], out, at)
}

// Copies the records of the map clock and of an entry, one behind the other.
fn copy_key(s: &[u8], clock: Span, at: Spans, out: &mut [u8]) -> usize
    requires { (Inside s.now clock × (Inside s.now at.dots × (Inside s.now at.values × Inside s.now at.clocks)))
        × (length (key_records s.now clock at) * 16 ≤ length out.old) }
    ensures { Wrote 0 (bytes_of (key_records s.now clock at)) out.old out.new result }
{
    let second = copy_span(s, clock, out, 0);
    let third = copy_span(s, at.dots, out, second);
    let fourth = copy_span(s, at.values, out, third);
    copy_span(s, at.clocks, out, fourth)
}

// Answers the image of the map clock and the entry of a key alone.
pub fn give_key(map: &[u8], l: Layout, key: u32, out: &mut [u8]) -> u64
    requires { Lies map.now (read_map map.now).map l }
    ensures { Answered (record { first = 0; second = 0; own = 0; bytes = map_image (read_key (read_map map.now).map key) })
        out.old out.new result }
{
    let at = keyed::spans_of(map, l, key);
    let clock = Span {
        from: 0,
        to: l.second,
    };
    let n = size(clock) + (size(at.dots) + (size(at.values) + size(at.clocks)));
    if out.len() / 16 < n {
        return answers::word(10);
    }
    copy_key(map, clock, at, out) as u64
}
