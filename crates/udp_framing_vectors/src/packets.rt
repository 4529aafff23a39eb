// Time-sync packets, byte by byte, and targets and packets that are a byte too short.
use crate::bench::Bench;
use crate::hex::{Hex, Numbers};
use calls::Refusal;
use udp_framing::{TimeSyncRequest, TimeSyncResponse};

// What was answered, and what the target is then.
fn built(
    b: &mut Bench,
    answer: Result<usize, Refusal>,
    size: Result<usize, Refusal>,
    target: &[u8],
    expected: &[u8],
) {
    let same = answer == size && target == expected;
    match answer {
        Ok(n) => b.count(format_args!("built: {n} {}", Hex(target)), same),
        Err(_) => b.count(format_args!("built: refused {}", Hex(target)), same),
    }
}

fn build_requests(b: &mut Bench) {
    let mut target = [7u8; 26];
    let request = TimeSyncRequest {
        probe_id: 0x01020304,
        t1_ns: 0x1122334455667788,
    };
    let answer = udp_framing::build_time_sync_request(&mut target, request);
    built(
        b,
        answer,
        Ok(24),
        &target,
        b"\x52\x53\x02\x0c\x01\x02\x03\x04\x00\x00\x00\x00\x00\x00\x00\x00\x11\x22\x33\x44\x55\x66\x77\x88\x07\x07",
    );
    let mut short = [7u8; 23];
    let refused = udp_framing::build_time_sync_request(&mut short, request);
    built(b, refused, Err(Refusal::NoRoom), &short, &[7u8; 23]);
}

fn build_responses(b: &mut Bench) {
    let mut target = [7u8; 40];
    let response = TimeSyncResponse {
        probe_id: 0xfffffffe,
        t1_ns: 1,
        t2_ns: 0xffffffffffffffff,
        t3_ns: 0x8000000000000000,
    };
    let answer = udp_framing::build_time_sync_response(&mut target, response);
    built(
        b,
        answer,
        Ok(40),
        &target,
        b"\x52\x53\x02\x0d\xff\xff\xff\xfe\x00\x00\x00\x00\x00\x00\x00\x00\x00\x00\x00\x00\x00\x00\x00\x01\xff\xff\xff\xff\xff\xff\xff\xff\x80\x00\x00\x00\x00\x00\x00\x00",
    );
    let mut short = [7u8; 39];
    let refused = udp_framing::build_time_sync_response(&mut short, response);
    built(b, refused, Err(Refusal::NoRoom), &short, &[7u8; 39]);
}

// A packet's line, with the numbers of its fields where it was parsed.
fn parsed<const N: usize>(
    b: &mut Bench,
    kind: &str,
    packet: &[u8],
    fields: Result<[u64; N], Refusal>,
    same: bool,
) {
    let packet = Hex(packet);
    match fields {
        Ok(numbers) => b.count(format_args!("{kind}: {packet}{}", Numbers(&numbers)), same),
        Err(_) => b.count(format_args!("{kind}: {packet} refused"), same),
    }
}

// What is expected of a packet has another type for each kind, so that it is no struct with the packet.
fn request(b: &mut Bench, packet: &[u8], expected: Result<TimeSyncRequest, Refusal>) {
    let found = udp_framing::parse_time_sync_request(packet);
    let fields = found.map(|r| [u64::from(r.probe_id), r.t1_ns]);
    parsed(b, "request", packet, fields, found == expected);
}

fn response(b: &mut Bench, packet: &[u8], expected: Result<TimeSyncResponse, Refusal>) {
    let found = udp_framing::parse_time_sync_response(packet);
    let fields = found.map(|r| [u64::from(r.probe_id), r.t1_ns, r.t2_ns, r.t3_ns]);
    parsed(b, "response", packet, fields, found == expected);
}

fn parse(b: &mut Bench) {
    let asked =
        b"\x52\x53\x02\x0c\x01\x02\x03\x04\x00\x00\x00\x00\x00\x00\x00\x00\x11\x22\x33\x44\x55\x66\x77\x88";
    let answered =
        b"\x00\x53\x09\x0d\xff\xff\xff\xfe\x00\x00\x00\x00\x00\x00\x00\x00\x00\x00\x00\x00\x00\x00\x00\x01\xff\xff\xff\xff\xff\xff\xff\xff\x80\x00\x00\x00\x00\x00\x00\x00";
    request(
        b,
        asked,
        Ok(TimeSyncRequest {
            probe_id: 16909060,
            t1_ns: 1234605616436508552,
        }),
    );
    request(b, &asked[..23], Err(Refusal::NotTimePacket));
    request(b, answered, Err(Refusal::NotTimePacket));
    response(
        b,
        answered,
        Ok(TimeSyncResponse {
            probe_id: 4294967294,
            t1_ns: 1,
            t2_ns: 18446744073709551615,
            t3_ns: 9223372036854775808,
        }),
    );
    response(
        b,
        b"\x52\x53\x02\x0d\xff\xff\xff\xfe\x00\x00\x00\x00\x00\x00\x00\x00\x00\x00\x00\x00\x00\x00\x00\x01\xff\xff\xff\xff\xff\xff\xff\xff\x80\x00\x00\x00\x00\x00\x00",
        Err(Refusal::NotTimePacket),
    );
    response(b, asked, Err(Refusal::NotTimePacket));
}

pub(crate) fn run(b: &mut Bench) {
    build_requests(b);
    build_responses(b);
    parse(b);
}
