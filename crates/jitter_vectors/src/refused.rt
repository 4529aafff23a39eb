// Calls that must be refused, by the question that refuses them, beside ones that must not: sizes at which
// the original panics and sizes that are too large, areas one place too short, states that no receiver has, plays and
// datagrams out of their bounds.
use crate::acts::{Act, Lent};
use crate::asked::{Change, Changes, Expect, all_called, called, exact, set_up};
use crate::bench::{Bench, in_turn};
use crate::session::sizes;
use calls::{Refusal, Side, Sizes};
use udp_framing::MediaHeader;

// A setup of these sizes on so many places, and all calls of a state with these sizes.
fn sized(b: &mut Bench, name: &str, z: Sizes, lent: Lent, expect: Expect) {
    let first = set_up(z, lent, expect);
    let on_a = all_called(Side::A, Change::Sizes(z), lent, expect);
    let on_b = all_called(Side::B, Change::Sizes(z), lent, expect);
    b.count(name, in_turn(first, in_turn(on_a, on_b)));
}

// All calls of changed states.
fn held(b: &mut Bench, states: &[(&str, Change, Expect)]) {
    for &(name, change, expect) in states {
        let on_a = all_called(Side::A, change, exact(), expect);
        let on_b = all_called(Side::B, change, exact(), expect);
        b.count(name, in_turn(on_a, on_b));
    }
}

fn datagram(magic: u16, version: u8, stream_type: u8, n: usize) -> Act {
    let header = MediaHeader {
        magic,
        version,
        stream_type,
        sequence: 14,
        timestamp: 0,
    };
    Act::Datagram(header, 1, n)
}

// Calls of a state as it is.
fn as_it_is(b: &mut Bench, acts: &[(&str, Act, Expect)]) {
    let change = Change::Sizes(sizes(4, 8, 16));
    for &(name, a, expect) in acts {
        let first = called(Side::A, change, exact(), a, expect);
        let second = called(Side::B, change, exact(), a, expect);
        b.count(name, in_turn(first, second));
    }
}

fn lengths(b: &mut Bench) {
    let lengths = [
        ("areas of the exact length", 63, 10, Ok(Changes::Any)),
        ("one float too few", 62, 10, Err(Refusal::NoRoom)),
        ("one float more", 64, 10, Ok(Changes::Any)),
        ("one word too few", 63, 9, Err(Refusal::NoRoom)),
        ("one word more", 63, 11, Ok(Changes::Any)),
    ];
    for (name, floats, words, expect) in lengths {
        sized(b, name, sizes(4, 8, 16), Lent { floats, words }, expect);
    }
}

// Sizes that question 1 lets through are refused by question 2 on areas that are too short for them.
fn limits(b: &mut Bench) {
    let limits = [
        ("packet of no samples", 0, 8, 16, Refusal::Sizes),
        ("target below packet", 4, 3, 16, Refusal::Sizes),
        ("target and max of one packet", 64, 64, 64, Refusal::NoRoom),
        ("max below target", 4, 8, 7, Refusal::Sizes),
        ("largest sizes", 4096, 65536, 131072, Refusal::NoRoom),
        ("packet too large", 4097, 65536, 131072, Refusal::Sizes),
        ("target too large", 4096, 65537, 131072, Refusal::Sizes),
        ("max too large", 4096, 65536, 131073, Refusal::Sizes),
    ];
    for (name, packet, target, max, why) in limits {
        sized(b, name, sizes(packet, target, max), exact(), Err(why));
    }
}

fn states(b: &mut Bench) {
    held(
        b,
        &[
            ("run of two", Change::Run(2), Ok(Changes::Any)),
            ("run of three", Change::Run(3), Err(Refusal::NotHeld)),
            ("queue of 11", Change::Queue(11), Ok(Changes::Any)),
            ("queue of 12", Change::Queue(12), Err(Refusal::NotHeld)),
            (
                "five waiting in four places",
                Change::Waiting(5),
                Err(Refusal::NotHeld),
            ),
            (
                "waiting sequences rise",
                Change::Second(14),
                Ok(Changes::Any),
            ),
            (
                "waiting sequences equal",
                Change::Second(12),
                Err(Refusal::NotHeld),
            ),
            ("last call", Change::Calls(4294967294), Ok(Changes::Any)),
            (
                "no call left",
                Change::Calls(4294967295),
                Err(Refusal::TooManyCalls),
            ),
        ],
    );
}

fn plays_and_datagrams(b: &mut Bench) {
    as_it_is(
        b,
        &[
            ("longest play", Act::Play(65535), Ok(Changes::Any)),
            ("play too long", Act::Play(65536), Err(Refusal::Range)),
            (
                "datagram of 15 bytes",
                datagram(0x5253, 1, 1, 15),
                Err(Refusal::Length),
            ),
            (
                "magic one too large",
                datagram(0x5254, 1, 1, 24),
                Err(Refusal::Header),
            ),
            (
                "version 0",
                datagram(0x5253, 0, 1, 24),
                Err(Refusal::Header),
            ),
            ("version 2", datagram(0x5253, 2, 1, 32), Ok(Changes::Any)),
            (
                "version 3",
                datagram(0x5253, 3, 1, 32),
                Err(Refusal::Header),
            ),
            (
                "another stream",
                datagram(0x5253, 1, 5, 24),
                Ok(Changes::Counts),
            ),
        ],
    );
}

pub fn all(b: &mut Bench) {
    lengths(b);
    limits(b);
    states(b);
    plays_and_datagrams(b);
}
