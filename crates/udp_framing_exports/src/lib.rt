// udp_framing for callers in other languages: numbers go as themselves, and a value of several numbers into a slice
// that the caller lends. What the slice has no room for is left out. Times and a probe's number go in one by one, as those
// languages hand them over.
#![tactic(auto)]

ghost use Rattle.std.specs.Prelude.{◌≡◌};
ghost use Rattle.model.specs.Framing.{parse_header, valid_header, audio_start, audio_send_time, build_request, build_response, parse_request, parse_response};
ghost use Rattle.model.specs.Clock.{probe_offset, probe_round_trip};
ghost use Rattle.udp_framing.specs.Views.{header_of, request_of, response_of};
ghost use Rattle.udp_framing_exports.specs.Handing.{header_with, header_numbers, time_numbers, request_numbers, response_numbers, numbers_found, HandedFrom, BuiltOr0};

use calls::ProbeTimes;
use numbers::put;
use udp_framing::{MediaHeader, TimeSyncRequest, TimeSyncResponse};

// A value's numbers at the front of the slice, and whether there is a value.
fn handed<const N: usize>(numbers: &mut [u64], fields: Option<[u64; N]>) -> bool
    ensures { HandedFrom (λ l. l) (numbers_found fields.entry) numbers.old numbers.new result }
{
    let Some(found) = fields else {
        return false;
    };
    put(numbers, 0, &found);
    true
}

// Magic, version, stream type, sequence and timestamp.
#[unsafe(no_mangle)]
pub extern "C" fn udp_framing_parse_media_header(packet: &[u8], numbers: &mut [u64]) -> bool
    ensures { HandedFrom header_numbers (parse_header packet.now) numbers.old numbers.new result }
{
    let header = udp_framing::parse_media_header(packet);
    let fields = header.map(
        |h|
            ensures { result ≡ header_numbers (header_of h) }
        {
            [
                h.magic as u64,
                h.version as u64,
                h.stream_type as u64,
                h.sequence as u64,
                h.timestamp,
            ]
        },
    );
    handed(numbers, fields)
}

// The header of which only magic and version matter.
fn header_with(magic: u16, version: u8) -> MediaHeader
    ensures { header_of result ≡ header_with magic version }
{
    MediaHeader {
        magic,
        version,
        stream_type: 0,
        sequence: 0,
        timestamp: 0,
    }
}

#[unsafe(no_mangle)]
pub extern "C" fn udp_framing_is_valid_header(magic: u16, version: u8) -> bool
    ensures { result ≡ valid_header (header_with magic version) }
{
    udp_framing::is_valid_header(header_with(magic, version))
}

#[unsafe(no_mangle)]
pub extern "C" fn udp_framing_audio_samples_offset(version: u8) -> usize
    ensures { result ≡ audio_start version }
{
    udp_framing::audio_samples_offset(version)
}

// The send time.
#[unsafe(no_mangle)]
pub extern "C" fn udp_framing_audio_send_wall_ns(
    version: u8,
    packet: &[u8],
    numbers: &mut [u64],
) -> bool
    ensures { HandedFrom time_numbers (audio_send_time (header_with 0 version) packet.now) numbers.old numbers.new result }
{
    let time = udp_framing::audio_send_wall_ns(header_with(0, version), packet);
    let fields = time.map(
        |n|
            ensures { result ≡ time_numbers n }
        { [n] },
    );
    handed(numbers, fields)
}

// The number of bytes that were written; 0 where the target is too short.
#[unsafe(no_mangle)]
pub extern "C" fn udp_framing_build_time_sync_request(
    target: &mut [u8],
    probe_id: u32,
    t1_ns: u64,
) -> usize
    ensures { BuiltOr0 (build_request (record { probe = probe_id; t1 = t1_ns })) target.old target.new result }
{
    udp_framing::build_time_sync_request(target, TimeSyncRequest { probe_id, t1_ns }).unwrap_or(0)
}

// The number of bytes that were written; 0 where the target is too short.
#[unsafe(no_mangle)]
pub extern "C" fn udp_framing_build_time_sync_response(
    target: &mut [u8],
    probe_id: u32,
    t1_ns: u64,
    t2_ns: u64,
    t3_ns: u64,
) -> usize
    ensures { BuiltOr0 (build_response (record { probe = probe_id; t1 = t1_ns; t2 = t2_ns; t3 = t3_ns })) target.old target.new result }
{
    let response = TimeSyncResponse {
        probe_id,
        t1_ns,
        t2_ns,
        t3_ns,
    };
    udp_framing::build_time_sync_response(target, response).unwrap_or(0)
}

// The probe's number and t1.
#[unsafe(no_mangle)]
pub extern "C" fn udp_framing_parse_time_sync_request(packet: &[u8], numbers: &mut [u64]) -> bool
    ensures { HandedFrom request_numbers (parse_request packet.now) numbers.old numbers.new result }
{
    let request = udp_framing::parse_time_sync_request(packet).ok();
    let fields = request.map(
        |r|
            ensures { result ≡ request_numbers (request_of r) }
        { [r.probe_id as u64, r.t1_ns] },
    );
    handed(numbers, fields)
}

// The probe's number, t1, t2 and t3.
#[unsafe(no_mangle)]
pub extern "C" fn udp_framing_parse_time_sync_response(packet: &[u8], numbers: &mut [u64]) -> bool
    ensures { HandedFrom response_numbers (parse_response packet.now) numbers.old numbers.new result }
{
    let response = udp_framing::parse_time_sync_response(packet).ok();
    let fields = response.map(
        |r|
            ensures { result ≡ response_numbers (response_of r) }
        { [r.probe_id as u64, r.t1_ns, r.t2_ns, r.t3_ns] },
    );
    handed(numbers, fields)
}

#[unsafe(no_mangle)]
pub extern "C" fn udp_framing_clock_offset(t1: u64, t2: u64, t3: u64, t4: u64) -> i64
    ensures { result ≡ probe_offset t1 t2 t3 t4 }
{
    udp_framing::clock_offset_rtt(ProbeTimes { t1, t2, t3, t4 }).offset
}

#[unsafe(no_mangle)]
pub extern "C" fn udp_framing_clock_rtt(t1: u64, t2: u64, t3: u64, t4: u64) -> i64
    ensures { result ≡ probe_round_trip t1 t2 t3 t4 }
{
    udp_framing::clock_offset_rtt(ProbeTimes { t1, t2, t3, t4 }).rtt
}
