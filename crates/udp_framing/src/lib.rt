// Framing of datagrams: the media header, the send time of an audio datagram, the time-sync packets, and the offset and
// round trip that their times come to. All numbers are big-endian.
#![tactic(auto)]

pub mod big_endian;
pub mod words;

ghost use Rattle.std.specs.Prelude.{◌≡◌, ◌≤◌, length};
ghost use Rattle.model.specs.Bytes.{placed};
ghost use Rattle.model.specs.Framing.{header_length, parse_header, valid_header, audio_start, audio_send_time, build_request, build_response, parse_request, parse_response};
ghost use Rattle.model.specs.Clock.{low64};
ghost use Rattle.udp_framing.specs.StreamTypes.{stream_number, Numbered};
ghost use Rattle.udp_framing.specs.Views.{header_of, header_found, send_time_found, or_refusal, answer_of, request_of, response_of};
ghost use Rattle.udp_framing.specs.Promises.{header_bytes, BuiltAs, TimePacketAsked, Measured};

use big_endian::BigEndian;
use calls::{ProbeTimes, Refusal};
use words::{as_signed, half_difference};

// "RS", at the front of each datagram.
pub const MAGIC: u16 = 0x5253;

// The version that is built. Version 2 has a send time between the header and the samples of an audio datagram, and
// the time-sync packets. Version 1 is still valid.
pub const VERSION: u8 = 2;

// What a datagram carries. A header keeps any number: one that is none of these is of a type that this side does not know.
#[derive(Clone, Copy, PartialEq, Eq, Debug)]
pub enum StreamType {
    Audio = 1,
    Waterfall = 2,
    AudioVfoB = 3,
    WaterfallVfoB = 4,
    RegisterAudio = 10,
    MicAudio = 11,
    // The probe of a clock: the header, whose sequence is the probe's number, and t1.
    TimeSyncRequest = 12,
    // The answer to a probe: the header with the probe's number, t1, t2 and t3.
    TimeSyncResponse = 13,
}

// A number that is of no stream type.
#[derive(Clone, Copy, PartialEq, Eq, Debug)]
pub struct UnknownStreamType(pub u8);

impl From<StreamType> for u8 {
    ghost from_gives = { λ t n. n ≡ stream_number t };

    fn from(t: StreamType) -> u8 {
        t as u8
    }
}

impl TryFrom<u8> for StreamType {
    type Error = UnknownStreamType;

    ghost try_from_gives = { Numbered };

    fn try_from(n: u8) -> Result<StreamType, UnknownStreamType> {
        match n {
            1 => Ok(StreamType::Audio),
            2 => Ok(StreamType::Waterfall),
            3 => Ok(StreamType::AudioVfoB),
            4 => Ok(StreamType::WaterfallVfoB),
            10 => Ok(StreamType::RegisterAudio),
            11 => Ok(StreamType::MicAudio),
            12 => Ok(StreamType::TimeSyncRequest),
            13 => Ok(StreamType::TimeSyncResponse),
            _ => Err(UnknownStreamType(n)),
        }
    }
}

// The header's bytes.
pub const HEADER_LEN: usize = 16;
// The bytes of an audio datagram's send time.
pub const AUDIO_SEND_WALL_NS_LEN: usize = 8;

// Bytes 0 and 1: magic; 2: version; 3: stream type; 4 to 7: sequence; 8 to 15: timestamp.
#[derive(Clone, Copy, PartialEq, Eq, Debug)]
pub struct MediaHeader {
    pub magic: u16,
    pub version: u8,
    pub stream_type: u8,
    pub sequence: u32,
    pub timestamp: u64,
}

// The header at the front of a datagram of 16 bytes or more. Its fields are not judged: see is_valid_header.
#[tactic(auto, unfolding(model::specs::Framing::parse_header, model::specs::Framing::header_fields))]
pub fn parse_media_header(packet: &[u8]) -> Option<MediaHeader>
    ensures { header_found result ≡ parse_header packet.now }
{
    if packet.len() < HEADER_LEN {
        return None;
    }
    Some(MediaHeader {
        magic: u16::read_from(packet, 0),
        version: u8::read_from(packet, 2),
        stream_type: u8::read_from(packet, 3),
        sequence: u32::read_from(packet, 4),
        timestamp: u64::read_from(packet, 8),
    })
}

// Whether the magic is right and the version is 1 or 2. Stream type and sequence are not judged.
#[tactic(auto, unfolding(model::specs::Framing::valid_header))]
pub fn is_valid_header(header: MediaHeader) -> bool
    ensures { result ≡ valid_header (header_of header) }
{
    header.magic == MAGIC && (1..=VERSION).contains(&header.version)
}

// Where the samples of an audio datagram of that version begin.
#[tactic(auto, unfolding(model::specs::Framing::audio_start))]
pub fn audio_samples_offset(version: u8) -> usize
    ensures { result ≡ audio_start version }
{
    if version >= 2 {
        HEADER_LEN + AUDIO_SEND_WALL_NS_LEN
    } else {
        HEADER_LEN
    }
}

// The server's send time in an audio datagram, in nanoseconds of its clock. Version 1 has none, nor has a datagram that
// is too short.
#[tactic(auto, unfolding(model::specs::Framing::audio_send_time))]
pub fn audio_send_wall_ns(header: MediaHeader, packet: &[u8]) -> Option<u64>
    ensures { send_time_found result ≡ audio_send_time (header_of header) packet.now }
{
    if header.version < 2 || packet.len() < HEADER_LEN + AUDIO_SEND_WALL_NS_LEN {
        return None;
    }
    Some(u64::read_from(packet, HEADER_LEN))
}

// Writes a header of the version that is built at the front of the target.
fn push_header(target: &mut [u8], stream_type: StreamType, sequence: u32, timestamp: u64)
    requires { 16 ≤ length target.old }
    ensures { target.new ≡ placed 0 (header_bytes (stream_number stream_type) sequence timestamp) target.old }
{
    MAGIC.write_to(target, 0);
    VERSION.write_to(target, 2);
    u8::from(stream_type).write_to(target, 3);
    sequence.write_to(target, 4);
    timestamp.write_to(target, 8);
}

#[derive(Clone, Copy, PartialEq, Eq, Debug)]
pub struct TimeSyncRequest {
    pub probe_id: u32,
    pub t1_ns: u64,
}

// Builds a time-sync request of 24 bytes, which carries the client's send time, at the front of the target. The answer
// is the number of bytes. Where the target is too short, nothing is written.
pub fn build_time_sync_request(
    target: &mut [u8],
    request: TimeSyncRequest,
) -> Result<usize, Refusal>
    ensures { BuiltAs (build_request (request_of request)) target.old target.new result }
{
    if target.len() < HEADER_LEN + 8 {
        return Err(Refusal::NoRoom);
    }
    push_header(target, StreamType::TimeSyncRequest, request.probe_id, 0);
    request.t1_ns.write_to(target, 16);
    Ok(24)
}

// The header of a time-sync packet, which has that type and so many bytes or more.
#[tactic(auto, using(model::proofs::TimePackets::header_found_law, model::proofs::TimePackets::no_header_no_time_packet, model::proofs::TimePackets::other_type_no_time_packet, model::proofs::TimePackets::short_no_time_packet, model::proofs::TimePackets::time_packet_found))]
fn time_header(packet: &[u8], stream_type: StreamType, size: usize) -> Result<MediaHeader, Refusal>
    requires { header_length ≤ size }
    ensures { TimePacketAsked (stream_number stream_type) size packet.now result }
{
    let header = parse_media_header(packet).ok_or(Refusal::NotTimePacket)?;
    if header.stream_type != u8::from(stream_type) || packet.len() < size {
        return Err(Refusal::NotTimePacket);
    }
    Ok(header)
}

// The numbers of a time-sync request. Another type is refused, and so is a packet under 24 bytes. Magic and version are
// not judged.
#[tactic(auto, unfolding(model::specs::Framing::parse_request))]
pub fn parse_time_sync_request(packet: &[u8]) -> Result<TimeSyncRequest, Refusal>
    ensures { answer_of request_of result ≡ or_refusal 10 (parse_request packet.now) }
{
    let header = time_header(packet, StreamType::TimeSyncRequest, HEADER_LEN + 8)?;
    Ok(TimeSyncRequest {
        probe_id: header.sequence,
        t1_ns: u64::read_from(packet, HEADER_LEN),
    })
}

#[derive(Clone, Copy, PartialEq, Eq, Debug)]
pub struct TimeSyncResponse {
    pub probe_id: u32,
    pub t1_ns: u64,
    pub t2_ns: u64,
    pub t3_ns: u64,
}

// Builds a time-sync response of 40 bytes, which has the request's t1 again and the server's receive and send times.
// Its answer and its refusal are those of a request.
pub fn build_time_sync_response(
    target: &mut [u8],
    response: TimeSyncResponse,
) -> Result<usize, Refusal>
    ensures { BuiltAs (build_response (response_of response)) target.old target.new result }
{
    if target.len() < HEADER_LEN + 24 {
        return Err(Refusal::NoRoom);
    }
    push_header(target, StreamType::TimeSyncResponse, response.probe_id, 0);
    response.t1_ns.write_to(target, 16);
    response.t2_ns.write_to(target, 24);
    response.t3_ns.write_to(target, 32);
    Ok(40)
}

// The numbers of a time-sync response. Another type is refused, and so is a packet under 40 bytes. Magic and version
// are not judged.
#[tactic(auto, unfolding(model::specs::Framing::parse_response))]
pub fn parse_time_sync_response(packet: &[u8]) -> Result<TimeSyncResponse, Refusal>
    ensures { answer_of response_of result ≡ or_refusal 10 (parse_response packet.now) }
{
    let header = time_header(packet, StreamType::TimeSyncResponse, HEADER_LEN + 24)?;
    Ok(TimeSyncResponse {
        probe_id: header.sequence,
        t1_ns: u64::read_from(packet, 16),
        t2_ns: u64::read_from(packet, 24),
        t3_ns: u64::read_from(packet, 32),
    })
}

// Nanoseconds: the server's clock less the client's, and the network's share of a probe's time.
#[derive(Clone, Copy, PartialEq, Eq, Debug)]
pub struct OffsetRtt {
    pub offset: i64,
    pub rtt: i64,
}

// The low 64 bits of a number of 128, as a signed number. (Offset and round trip are worked out in words of 64 bits; this is for a caller
// that holds such a number.)
#[tactic(auto, using(model::proofs::CastLaws::low_bits_of_signed), unfolding(model::specs::Clock::low64))]
pub fn low_64(n: i128) -> i64
    ensures { result ≡ low64 n }
{
    as_signed((n.cast_unsigned() % (1 << 64)) as u64)
}

// From a probe's four times: ((t2 - t1) + (t3 - t4)) / 2 toward zero and (t4 - t1) - (t3 - t2), the low 64 bits of each.
pub fn clock_offset_rtt(t: ProbeTimes) -> OffsetRtt
    ensures { Measured t result }
{
    let server = t.t2.carrying_add(t.t3, false);
    let client = t.t1.carrying_add(t.t4, false);
    let offset = half_difference(server, client);
    let away = t.t4.wrapping_sub(t.t1);
    let served = t.t3.wrapping_sub(t.t2);
    let rtt = away.wrapping_sub(served);
    OffsetRtt {
        offset: as_signed(offset),
        rtt: as_signed(rtt),
    }
}

#[cfg(test)]
mod tests {
    use super::*;

    // What two's complement keeps of a number.
    #[test]
    fn low_64_keeps_the_low_bits(rt: HostRuntime) {
        let cases = [
            (0, 0),
            (-1, -1),
            (i128::from(i64::MAX), i64::MAX),
            (i128::from(i64::MIN), i64::MIN),
            (1 << 63, i64::MIN),
            ((1 << 64) - 1, -1),
            (1 << 64, 0),
            (3 * (1 << 64) + 5, 5),
            (-(1 << 63) - 1, i64::MAX),
            (-(1 << 64) - 7, -7),
            (i128::MAX, -1),
            (i128::MIN, 0),
        ];
        for (n, want) in cases {
            assert_eq!(rt; low_64(n), want, "at {n}");
        }
    }
}
