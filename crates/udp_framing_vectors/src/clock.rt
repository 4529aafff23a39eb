// Offset and round trip of RFC 5905, section 8, on plain times and on times near the wrap of 64 bits.
use crate::bench::Bench;
use calls::ProbeTimes;
use udp_framing::OffsetRtt;

const LAST: u64 = u64::MAX;

const MIDDLE: u64 = 9223372036854775808;

fn sent(t1: u64, t2: u64, t3: u64, t4: u64) -> ProbeTimes {
    ProbeTimes { t1, t2, t3, t4 }
}

fn clock(offset: i64, rtt: i64) -> OffsetRtt {
    OffsetRtt { offset, rtt }
}

// The times of probes, each with what they come to.
fn probes(b: &mut Bench, vectors: &[(ProbeTimes, OffsetRtt)]) {
    for &(times, expected) in vectors {
        let found = udp_framing::clock_offset_rtt(times);
        let ProbeTimes { t1, t2, t3, t4 } = times;
        b.count(
            format_args!(
                "times {t1} {t2} {t3} {t4}: offset and round trip {} {}",
                found.offset, found.rtt
            ),
            found == expected,
        );
    }
}

fn plain(b: &mut Bench) {
    probes(
        b,
        &[
            (sent(10, 5, 5, 11), clock(-5, 1)),
            (sent(1000, 1600, 1700, 1300), clock(500, 200)),
            (sent(0, 0, 0, 1), clock(0, 1)),
            (sent(0, 5, 0, 0), clock(2, 5)),
            (sent(5, 0, 0, 0), clock(-2, -5)),
        ],
    );
}

fn near_the_wrap(b: &mut Bench) {
    probes(
        b,
        &[
            (sent(0, LAST, LAST, 1), clock(-2, 1)),
            (sent(LAST, 0, 0, LAST), clock(1, 0)),
            (sent(0, LAST, LAST, 0), clock(-1, 0)),
            (sent(LAST, LAST, 0, 0), clock(0, 0)),
            (sent(MIDDLE, 0, 0, MIDDLE), clock(i64::MIN, 0)),
            (sent(0, MIDDLE, MIDDLE, 1), clock(i64::MAX, 1)),
            (sent(18446744073709551614, LAST, 0, 1), clock(0, 2)),
        ],
    );
}

pub(crate) fn run(b: &mut Bench) {
    plain(b);
    near_the_wrap(b);
}
