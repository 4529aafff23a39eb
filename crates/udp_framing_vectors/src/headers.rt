// Headers of 15 and 16 bytes, versions 0 to 3, and audio datagrams of 23 and 24 bytes.
use crate::bench::Bench;
use udp_framing::MediaHeader;

// Version 2, audio, sequence 7, timestamp 2^32 + 2, and eight bytes more.
const DATAGRAM: [u8; 24] = [
    0x52, 0x53, 2, 1, 0, 0, 0, 7, 0, 0, 0, 1, 0, 0, 0, 2, 1, 2, 3, 4, 5, 6, 7, 8,
];

// What is expected of a packet has another type for each kind, so that it is no struct with the packet.
fn header(b: &mut Bench, packet: &[u8], expected: Option<MediaHeader>) {
    let n = packet.len();
    let found = udp_framing::parse_media_header(packet);
    let same = found == expected;
    match found {
        Some(h) => b.count(
            format_args!(
                "header of {n} bytes: {} {} {} {} {}",
                h.magic, h.version, h.stream_type, h.sequence, h.timestamp,
            ),
            same,
        ),
        None => b.count(format_args!("header of {n} bytes: none"), same),
    }
}

fn header_with(magic: u16, version: u8) -> MediaHeader {
    MediaHeader {
        magic,
        version,
        stream_type: 1,
        sequence: 0,
        timestamp: 0,
    }
}

fn validity(b: &mut Bench, magic: u16, version: u8, expected: bool) {
    let valid = udp_framing::is_valid_header(header_with(magic, version));
    let answer = if valid { "valid" } else { "not valid" };
    b.count(
        format_args!("magic and version {magic} {version}: {answer}"),
        valid == expected,
    );
}

fn start(b: &mut Bench, version: u8, expected: usize) {
    let at = udp_framing::audio_samples_offset(version);
    b.count(
        format_args!("audio of version {version} starts at {at}"),
        at == expected,
    );
}

fn send_time(b: &mut Bench, version: u8, packet: &[u8], expected: Option<u64>) {
    let bytes = packet.len();
    let found = udp_framing::audio_send_wall_ns(header_with(0x5253, version), packet);
    let same = found == expected;
    match found {
        Some(n) => b.count(
            format_args!("send time of version and bytes {version} {bytes}: {n}"),
            same,
        ),
        None => b.count(
            format_args!("send time of version and bytes {version} {bytes}: none"),
            same,
        ),
    }
}

fn parsed(b: &mut Bench) {
    let d = DATAGRAM;
    header(b, &d[..15], None);
    header(
        b,
        &[255u8; 16],
        Some(MediaHeader {
            magic: 65535,
            version: 255,
            stream_type: 255,
            sequence: 4294967295,
            timestamp: 18446744073709551615,
        }),
    );
    header(
        b,
        &d[..16],
        Some(MediaHeader {
            magic: 21075,
            version: 2,
            stream_type: 1,
            sequence: 7,
            timestamp: 4294967298,
        }),
    );
}

fn versions(b: &mut Bench) {
    validity(b, 0x5253, 0, false);
    validity(b, 0x5253, 1, true);
    validity(b, 0x5253, 2, true);
    validity(b, 0x5253, 3, false);
    validity(b, 0x5352, 2, false);
    start(b, 0, 16);
    start(b, 1, 16);
    start(b, 2, 24);
    start(b, 3, 24);
}

fn send_times(b: &mut Bench) {
    let d = DATAGRAM;
    send_time(b, 2, &d[..23], None);
    send_time(b, 2, &d, Some(72623859790382856));
    send_time(b, 1, &d, None);
    send_time(b, 3, &d, Some(72623859790382856));
}

pub(crate) fn run(b: &mut Bench) {
    parsed(b);
    versions(b);
    send_times(b);
}
