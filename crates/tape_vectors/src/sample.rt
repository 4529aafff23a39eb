// Two tapes: one with every kind of call, of 57 words, and the small one of 21 words that docs/TAPE.md prints.
use calls::{DepthCounts, Estimates, OneWayTimes, ProbeTimes, Settings, Side, Sizes};
use tape::Setup;
use tape_writer::PutError;

// A probe of which each time shows which half of it stands where.
pub(crate) const ONE_WAY: OneWayTimes = OneWayTimes {
    receive: 12884901892,
    send: 5,
};

pub(crate) const TIMES: ProbeTimes = ProbeTimes {
    t1: 1,
    t2: 4294967298,
    t3: 18446744073709551615,
    t4: 0,
};

fn small_sizes() -> Sizes {
    Sizes {
        packet: 2,
        target: 2,
        max: 4,
        bins: 1,
        width: 1,
        height: 1,
    }
}

fn estimates(top: u32, floor: u32, range: u32) -> Estimates {
    Estimates { top, floor, range }
}

// The setup of the tape with every kind of call.
pub fn every_call_setup() -> Setup {
    Setup {
        sizes: small_sizes(),
        a: estimates(1, 2, 3),
        b: estimates(4, 5, 4294967295),
    }
}

pub fn settings(adaptive: bool) -> Settings {
    Settings {
        adaptive,
        top: 3255566336,
        range: 1116471296,
        zoom: 1065353216,
        smoothing: 2143289344,
    }
}

pub fn depth_counts() -> DepthCounts {
    DepthCounts {
        conceals: 1,
        late: 4294967296,
        overflow: 18446744073709551615,
        resyncs: 4294967297,
    }
}

// Places 13 to 17: a datagram of 5 bytes and two plays.
fn datagram_and_plays(t: &mut [u8], place: usize) -> Result<usize, PutError> {
    let bytes = [1u8, 2, 3, 4, 5];
    let p = tape_writer::put_datagram(t, place, &bytes)?;
    let p = tape_writer::put_play(t, p, Side::A, 2)?;
    tape_writer::put_play(t, p, Side::B, 65535)
}

// Places 18 to 29: two resets and two sets.
fn resets_and_sets(t: &mut [u8], place: usize) -> Result<usize, PutError> {
    let p = tape_writer::put_reset(t, place, Side::A)?;
    let p = tape_writer::put_reset(t, p, Side::B)?;
    let p = tape_writer::put_set(t, p, Side::A, settings(false))?;
    tape_writer::put_set(t, p, Side::B, settings(true))
}

fn channel_calls(t: &mut [u8], place: usize) -> Result<usize, PutError> {
    let p = datagram_and_plays(t, place)?;
    resets_and_sets(t, p)
}

// Places 30 to 55: a probe, a one-way, a depth, a transmit depth.
fn clock_calls(t: &mut [u8], place: usize) -> Result<usize, PutError> {
    let p = tape_writer::put_probe(t, place, TIMES)?;
    let p = tape_writer::put_one_way(t, p, ONE_WAY)?;
    let p = tape_writer::put_depth(t, p, 4294967295, depth_counts())?;
    tape_writer::put_transmit_depth(t, p, 7)
}

// Every kind of call, in 228 bytes. The answer is the place after them.
pub fn every_call(t: &mut [u8]) -> Result<usize, PutError> {
    let p = tape_writer::put_setup(t, 0, every_call_setup())?;
    let p = channel_calls(t, p)?;
    let p = clock_calls(t, p)?;
    tape_writer::put_end(t, p)
}

// The small tape, in 84 bytes, likewise.
pub fn small(t: &mut [u8]) -> Result<usize, PutError> {
    let bytes = [
        0x52u8, 0x53, 1, 1, 0, 0, 0, 7, 0, 0, 0, 0, 0, 0, 0, 0, 0xff, 0x7f, 0x01, 0x80,
    ];
    let setup = Setup {
        sizes: small_sizes(),
        a: Estimates::default(),
        b: Estimates::default(),
    };
    let p = tape_writer::put_setup(t, 0, setup)?;
    let p = tape_writer::put_datagram(t, p, &bytes)?;
    let p = tape_writer::put_play(t, p, Side::A, 2)?;
    tape_writer::put_end(t, p)
}
