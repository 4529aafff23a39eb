// Datagrams: a header, magic 5253, version 1, stream, sequence and a timestamp of 0, and behind it a line's payload.
ghost use Rattle.std.specs.Prelude.{◌≤◌, length};
ghost use Rattle.io.specs.Counts.{IsPrefixLen};

use crate::payload;
use crate::words::Line;
use calls::Side;
use numbers::put;
use udp_framing::{MAGIC, StreamType};

// The stream of a channel's rows.
fn rows_stream(side: Side) -> StreamType {
    match side {
        Side::A => StreamType::Waterfall,
        Side::B => StreamType::WaterfallVfoB,
    }
}

// Puts a header of version 1 at the front. The timestamp's bytes stay as they are.
pub(crate) fn put_header(d: &mut [u8], stream: StreamType, sequence: u32) {
    put(d, 0, &MAGIC.to_be_bytes());
    put(d, 2, &[1, u8::from(stream)]);
    put(d, 4, &sequence.to_be_bytes());
}

// Puts a line's payload at the front. A table of the three would hand out a function, which is refused.
fn put_payload(line: Line<'_>, p: &mut [u8]) -> usize
    ensures { IsPrefixLen result p.new }
{
    match line.letter {
        b'C' => payload::chunk(p, line.words),
        b'L' => payload::ruled_chunk(p, line.words),
        _ => payload::bytes(p, line.words),
    }
}

// A datagram of a channel's rows with a line's payload, put at the front. The answer is how many bytes it has.
pub(crate) fn put_rows(line: Line<'_>, side: Side, d: &mut [u8]) -> usize
    requires { 16 ≤ length d.old }
    ensures { IsPrefixLen result d.new }
{
    put_header(d, rows_stream(side), 0);
    let n = put_payload(line, &mut d[16..]);
    16 + n
}
