// The lines of a tape. Each begins with the place of what it tells and its kind; a float stands there by its bits.
ghost use Rattle.tape.specs.Answers.{CallInside};

use calls::{DepthCounts, Estimates, OneWayTimes, ProbeTimes, Settings, Side, Sizes};
use std::io;
use tape::heads::END_WORD;
use tape::{BadWord, Call, FIRST_CALL, Setup};
use udp_framing::MediaHeader;
use udp_framing::big_endian::BigEndian;

// A line, and how much of it is written. The longest, a setup's, has at most 128 bytes; what had no room would be left out. (By the
// runtime's macros a long tape's listing takes half as long again, since each line's bytes are cleared and its pieces are formatted.
// The `Line` of `lines` asks for a proof of room before each word.)
#[derive(Drop)]
pub struct Line {
    bytes: [u8; 160],
    at: usize,
}

impl Line {
    pub fn new() -> Line {
        Line {
            bytes: [0; 160],
            at: 0,
        }
    }

    fn byte(&mut self, b: u8) {
        self.at = text::put_byte(&mut self.bytes, self.at, b).unwrap_or(self.at);
    }

    fn digits(&mut self, n: u64) {
        self.at = text::put_decimal(&mut self.bytes, self.at, n).unwrap_or(self.at);
    }

    // A place, which begins a line.
    fn place(&mut self, n: usize) {
        self.at = 0;
        self.digits(n as u64);
    }

    // A space and a word.
    fn word(&mut self, letters: &[u8]) {
        self.byte(b' ');
        for b in letters {
            self.byte(*b);
        }
    }

    fn number(&mut self, n: u64) {
        self.byte(b' ');
        self.digits(n);
    }

    fn bits(&mut self, n: u32) {
        self.byte(b' ');
        self.at = text::put_hex(&mut self.bytes, self.at, n).unwrap_or(self.at);
    }

    fn side(&mut self, side: Side) {
        self.word(&[side.letter()]);
    }

    // Its end, by which it goes to standard output.
    fn end(&mut self, rt: &impl Print) -> io::Result<()> {
        self.byte(b'\n');
        rt.write_all(self.bytes.get(..self.at).unwrap_or(&[]))
    }

    // A line of a place and a word.
    fn plain(&mut self, rt: &impl Print, at: usize, letters: &[u8]) -> io::Result<()> {
        self.place(at);
        self.word(letters);
        self.end(rt)
    }

    fn sizes(&mut self, z: Sizes) {
        for n in z.numbers() {
            self.number(n);
        }
    }

    fn estimates(&mut self, e: Estimates) {
        self.bits(e.top);
        self.bits(e.floor);
        self.bits(e.range);
    }

    // A datagram's number of bytes, and its stream, version and sequence where it is long enough for a header.
    fn datagram(&mut self, bytes: &[u8]) {
        self.word(b"datagram");
        self.number(bytes.len() as u64);
        match udp_framing::parse_media_header(bytes) {
            Some(h) => self.header(h),
            None => self.word(b"- - -"),
        }
    }

    fn header(&mut self, h: MediaHeader) {
        self.number(u64::from(h.stream_type));
        self.number(u64::from(h.version));
        self.number(u64::from(h.sequence));
    }

    fn set(&mut self, side: Side, x: Settings) {
        self.word(b"set");
        self.side(side);
        self.number(u64::from(x.adaptive));
        self.bits(x.top);
        self.bits(x.range);
        self.bits(x.zoom);
        self.bits(x.smoothing);
    }

    fn probe(&mut self, t: ProbeTimes) {
        self.word(b"probe");
        self.number(t.t1);
        self.number(t.t2);
        self.number(t.t3);
        self.number(t.t4);
    }

    fn one_way(&mut self, t: OneWayTimes) {
        self.word(b"one-way");
        self.number(t.receive);
        self.number(t.send);
    }

    fn depth(&mut self, samples: u32, k: DepthCounts) {
        self.word(b"depth");
        self.number(u64::from(samples));
        self.number(k.conceals);
        self.number(k.late);
        self.number(k.overflow);
        self.number(k.resyncs);
    }
}

fn setup(rt: &impl Print, line: &mut Line, s: Setup) -> io::Result<()> {
    line.place(0);
    line.word(b"setup");
    line.sizes(s.sizes);
    line.estimates(s.a);
    line.estimates(s.b);
    line.end(rt)
}

// The call at a place.
fn call(rt: &impl Print, line: &mut Line, at: usize, tape: &[u8], call: Call) -> io::Result<()>
    requires { CallInside tape.now call }
{
    line.place(at);
    match call {
        Call::Datagram { at: from, len } => line.datagram(&tape[from..from + len]),
        Call::Play { side, samples } => {
            line.word(b"play");
            line.side(side);
            line.number(u64::from(samples));
        }
        Call::Reset { side } => {
            line.word(b"reset");
            line.side(side);
        }
        Call::Set { side, settings } => line.set(side, settings),
        Call::Probe(times) => line.probe(times),
        Call::OneWay(times) => line.one_way(times),
        Call::Depth { samples, counts } => line.depth(samples, counts),
        Call::TransmitDepth { samples } => {
            line.word(b"transmit-depth");
            line.number(u64::from(samples));
        }
    }
    line.end(rt)
}

// Whether an end word stands at a place.
fn ends_at(tape: &[u8], at: usize) -> bool {
    at < tape.len() / 4 && u32::read_from(tape, 4 * at) == END_WORD
}

// A bad word, and before it an end word with something behind it.
fn bad_word(
    rt: &impl Print,
    line: &mut Line,
    at: usize,
    tape: &[u8],
    bad: BadWord,
) -> io::Result<()> {
    if ends_at(tape, at) {
        line.plain(rt, at, b"end")?;
    }
    line.plain(rt, bad.place, b"bad")
}

// The calls, one after the other, and what ends them; each call takes a word of the tape at least. (No `while`: that is a law and two
// files of proof for its measure.)
fn calls(rt: &impl Print, line: &mut Line, tape: &[u8]) -> io::Result<()> {
    let mut at = FIRST_CALL;
    for _ in 0..tape.len() {
        match tape_reader::found_at(tape, at) {
            Ok(Some(placed)) => {
                call(rt, line, at, tape, placed.call)?;
                at = placed.next;
            }
            Ok(None) => {
                return line.plain(rt, at, b"end");
            }
            Err(bad) => {
                return bad_word(rt, line, at, tape, bad);
            }
        }
    }
    Ok(())
}

// The whole tape, to standard output.
pub fn list(rt: &impl Print, tape: &[u8]) -> io::Result<()> {
    let mut line = Line::new();
    match tape::reader::opening(tape) {
        Ok(s) => {
            setup(rt, &mut line, s)?;
            calls(rt, &mut line, tape)
        }
        Err(bad) => line.plain(rt, bad.place, b"bad"),
    }
}
