// The receiver's call for a datagram: its header, its counts, and its stream's work.
// It asks nothing of its caller: any bytes, areas and state are answered, and a refusal changes nothing.
// State, areas and bytes go in one by one: a struct of them would need a clause on each lent slice's reference in each contract.
#![tactic(auto)]

ghost use Rattle.std.specs.Prelude.{◌≡◌, length, ◌≤◌, Ok};
ghost use Rattle.model.specs.Framing.{stream_of, stream_in};
ghost use Rattle.model.specs.Questions.{first_no, stream_allowed};
ghost use Rattle.calls.specs.Views.{model_side, sizes_of};
ghost use Rattle.udp.specs.Requires.{CountsFit};
ghost use Rattle.udp.specs.Views.{counts_of};
ghost use Rattle.udp_framing.specs.Views.{header_of};
ghost use Rattle.receiver_state.specs.Promises.{verdict_of};
ghost use Rattle.receiver_state.specs.Fields.{answered};
ghost use Rattle.receiver_datagrams.specs.Promises.{model_stream, counted_on, header_questions, HeaderReady, DatagramTaken};

use calls::{Refusal, Side, Sizes};
use receiver_state::asking::asked;
use receiver_state::counted::{answered, count_call, count_header};
use receiver_state::sides::{audio_on, waterfall_on};
use receiver_state::{Answer, Answered, Receiver};
use udp::StreamCounts;
use udp_framing::{MediaHeader, StreamType};

// The stream of a datagram: a channel's sound or rows, or one that no channel takes.
#[derive(Clone, Copy)]
pub enum Stream {
    Audio(Side),
    Waterfall(Side),
    Other,
}

#[tactic(auto, unfolding(model::specs::Framing::stream_of))]
pub fn stream_of(stream_type: u8) -> Stream
    ensures { model_stream result ≡ stream_of stream_type }
{
    match StreamType::try_from(stream_type) {
        Ok(StreamType::Audio) => Stream::Audio(Side::A),
        Ok(StreamType::Waterfall) => Stream::Waterfall(Side::A),
        Ok(StreamType::AudioVfoB) => Stream::Audio(Side::B),
        Ok(StreamType::WaterfallVfoB) => Stream::Waterfall(Side::B),
        _ => Stream::Other,
    }
}

// The counts of a stream of that side after one datagram more: only channel A's streams are counted.
fn counted_on(counts: StreamCounts, side: Side, sequence: u32) -> StreamCounts
    requires { CountsFit (counts_of counts) }
    ensures { counts_of result ≡ counted_on side sequence (counts_of counts) }
{
    match side {
        Side::A => udp::update_sequence_stats(counts, sequence),
        Side::B => counts,
    }
}

// A datagram that all questions let through: its header is counted, and the work of its stream is done.
#[tactic(auto, using(crate::proofs::DatagramCalls::audio_fits, crate::proofs::DatagramCalls::waterfall_fits, crate::proofs::DatagramCalls::incoming_fits))]
fn dispatched(
    r: Receiver,
    fs: &mut [f32],
    us: &mut [u32],
    bytes: &[u8],
    header: MediaHeader,
    stream: Stream,
) -> (Receiver, Answer)
    requires { HeaderReady r fs.old us.old bytes.now header × (stream_in bytes.now ≡ model_stream stream) }
    ensures { DatagramTaken r fs.old us.old bytes.now (answered r (Ok result)) fs.new us.new }
{
    match stream {
        Stream::Audio(side) => {
            let counts = counted_on(r.audio, side, header.sequence);
            let begun = count_header(r, counts, r.waterfall);
            let start = udp_framing::audio_samples_offset(header.version);
            // A payload begins at the datagram's end at most.
            let from = start.min(bytes.len());
            let taken = audio_on(begun, fs, us, side, header.sequence, &bytes[from..]);
            (count_call(taken), Answer::NoRow)
        }
        Stream::Waterfall(side) => {
            let counts = counted_on(r.waterfall, side, header.sequence);
            let begun = count_header(r, r.audio, counts);
            let shown = waterfall_on(begun, fs, us, side, &bytes[16..]);
            let after = count_call(shown.state);
            (after, shown.completed.map_or(Answer::NoRow, Answer::Row))
        }
        // No channel takes it.
        Stream::Other => {
            let begun = count_header(r, r.audio, r.waterfall);
            (count_call(begun), Answer::NoRow)
        }
    }
}

// Question 8 of a datagram of that stream: a waterfall payload's total.
#[tactic(auto, using(std::proofs::lemmas::List::take_rest), unfolding(model::specs::Questions::stream_allowed))]
fn stream_allowed(z: Sizes, stream: Stream, bytes: &[u8]) -> bool
    requires { 16 ≤ length bytes.now }
    ensures { result ≡ stream_allowed (sizes_of z) bytes.now (model_stream stream) }
{
    match stream {
        Stream::Waterfall(_) => udp_packets::total_allowed(z, &bytes[16..]),
        Stream::Audio(_) | Stream::Other => true,
    }
}

// Questions 7 and 8, in their order: the first that is answered with no, if one is.
#[tactic(auto, unfolding(model::specs::Questions::first_no))]
fn header_asked(z: Sizes, header: MediaHeader, stream: Stream, bytes: &[u8]) -> Result<(), Refusal>
    requires { 16 ≤ length bytes.now }
    ensures { verdict_of result ≡ first_no (header_questions (sizes_of z) (header_of header) (model_stream stream) bytes.now) }
{
    let valid = udp_framing::is_valid_header(header);
    let allowed = stream_allowed(z, stream, bytes);
    if !valid {
        return Err(Refusal::Header);
    }
    if !allowed {
        return Err(Refusal::Total);
    }
    Ok(())
}

// A datagram's work, behind its questions.
fn received(
    r: Receiver,
    fs: &mut [f32],
    us: &mut [u32],
    bytes: &[u8],
) -> Result<(Receiver, Answer), Refusal>
    ensures { DatagramTaken r fs.old us.old bytes.now (answered r result) fs.new us.new }
{
    asked(r, fs, us)?;
    let header = udp_framing::parse_media_header(bytes).ok_or(Refusal::Length)?;
    if 65535 < bytes.len() {
        return Err(Refusal::Length);
    }
    let stream = stream_of(header.stream_type);
    header_asked(r.sizes, header, stream, bytes)?;
    Ok(dispatched(r, fs, us, bytes, header, stream))
}

// A datagram, as it came.
pub fn handle_media_packet(r: Receiver, fs: &mut [f32], us: &mut [u32], bytes: &[u8]) -> Answered
    ensures { DatagramTaken r fs.old us.old bytes.now result fs.new us.new }
{
    answered(r, received(r, fs, us, bytes))
}
