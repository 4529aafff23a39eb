// The static library of the clock for programs in other languages, over a state in 14 words: the functions of audio_metrics
// under names with a prefix. A call on words that no receiver could hold, or with numbers out of range, leaves them and answers
// false. Numbers go in one by one, as those languages hand them over.
#![tactic(auto)]

ghost use Rattle.std.specs.Prelude.{◌≡◌, true};
ghost use Rattle.model.specs.Floats.{to_bits};
ghost use Rattle.model.specs.Questions.{clock_held, probe_allowed, depth_allowed};
ghost use Rattle.model.specs.Clock.{fresh_clock, record_probe, record_one_way, record_depth, record_transmit, one_way_ms, round_trip_ms, offset_ms, depth_ms, depth_peak_ms};
ghost use Rattle.audio_metrics_words.specs.Words.{clock_in, clock_words, acts, words_after, reading_word};

use audio_metrics::AudioMetrics;
use audio_metrics_words::{from_words, reading_word, recorded, to_words};
use calls::{DepthCounts, OneWayTimes};

// The words before the first number.
#[unsafe(no_mangle)]
pub extern "C" fn audio_metrics_new(state: &mut [u64; 14])
    ensures { state.new ≡ clock_words fresh_clock }
{
    *state = to_words(AudioMetrics::new());
}

#[unsafe(no_mangle)]
pub extern "C" fn audio_metrics_could_be_held(state: &[u64; 14]) -> bool
    ensures { result ≡ clock_held (clock_in state.now) }
{
    from_words(state).could_be_held()
}

#[unsafe(no_mangle)]
pub extern "C" fn audio_metrics_record_probe(
    state: &mut [u64; 14],
    offset_ns: i64,
    rtt_ns: i64,
) -> bool
    ensures value { result ≡ acts (probe_allowed offset_ns rtt_ns) state.old }
    ensures state_after { state.new ≡ words_after (probe_allowed offset_ns rtt_ns) (record_probe offset_ns rtt_ns) state.old }
{
    let allowed = audio_metrics::probe_in_range(offset_ns, rtt_ns);
    recorded(state, allowed, |m| m.record_probe(offset_ns, rtt_ns))
}

#[unsafe(no_mangle)]
pub extern "C" fn audio_metrics_record_audio_one_way(
    state: &mut [u64; 14],
    recv_ns: u64,
    send_ns: u64,
) -> bool
    ensures value { result ≡ acts true state.old }
    ensures state_after { state.new ≡ words_after true (record_one_way recv_ns send_ns) state.old }
{
    let times = OneWayTimes {
        receive: recv_ns,
        send: send_ns,
    };
    recorded(state, true, |m| m.record_audio_one_way(times))
}

#[tactic(auto, unfolding(model::specs::Questions::depth_allowed))]
#[unsafe(no_mangle)]
pub extern "C" fn audio_metrics_publish_jitter(
    state: &mut [u64; 14],
    samples: usize,
    conceals: u64,
    late: u64,
    overflow: u64,
    resyncs: u64,
) -> bool
    ensures value { result ≡ acts (depth_allowed samples) state.old }
    ensures state_after { state.new ≡ words_after (depth_allowed samples) (record_depth samples (record { conceals = conceals; late = late; overflow = overflow; resyncs = resyncs })) state.old }
{
    let counts = DepthCounts {
        conceals,
        late,
        overflow,
        resyncs,
    };
    let allowed = audio_metrics::depth_in_range(samples);
    recorded(state, allowed, |m| m.publish_jitter(samples, counts))
}

#[tactic(auto, unfolding(model::specs::Questions::depth_allowed))]
#[unsafe(no_mangle)]
pub extern "C" fn audio_metrics_note_tx_ring(state: &mut [u64; 14], samples: usize) -> bool
    ensures value { result ≡ acts (depth_allowed samples) state.old }
    ensures state_after { state.new ≡ words_after (depth_allowed samples) (record_transmit samples) state.old }
{
    let allowed = audio_metrics::depth_in_range(samples);
    recorded(state, allowed, |m| m.note_tx_ring(samples))
}

#[unsafe(no_mangle)]
pub extern "C" fn audio_metrics_rx_one_way_ms(state: &[u64; 14]) -> u64
    ensures { result ≡ reading_word (one_way_ms (clock_in state.now)) }
{
    reading_word(from_words(state).rx_one_way_ms())
}

#[unsafe(no_mangle)]
pub extern "C" fn audio_metrics_rtt_ms(state: &[u64; 14]) -> u64
    ensures { result ≡ reading_word (round_trip_ms (clock_in state.now)) }
{
    reading_word(from_words(state).rtt_ms())
}

#[unsafe(no_mangle)]
pub extern "C" fn audio_metrics_clock_offset_ms(state: &[u64; 14]) -> u64
    ensures { result ≡ reading_word (offset_ms (clock_in state.now)) }
{
    reading_word(from_words(state).clock_offset_ms())
}

#[unsafe(no_mangle)]
pub extern "C" fn audio_metrics_jitter_ms(state: &[u64; 14]) -> u32
    ensures { result ≡ to_bits (depth_ms (clock_in state.now)) }
{
    floats::to_bits(from_words(state).jitter_ms())
}

#[unsafe(no_mangle)]
pub extern "C" fn audio_metrics_jitter_peak_ms(state: &[u64; 14]) -> u32
    ensures { result ≡ to_bits (depth_peak_ms (clock_in state.now)) }
{
    floats::to_bits(from_words(state).jitter_peak_ms())
}

#[unsafe(no_mangle)]
pub extern "C" fn audio_metrics_tx_ring_peak_ms(state: &[u64; 14]) -> u32
    ensures { result ≡ to_bits (clock_in state.now).transmit_peak }
{
    floats::to_bits(from_words(state).tx_ring_peak_ms())
}

#[unsafe(no_mangle)]
pub extern "C" fn audio_metrics_conceals(state: &[u64; 14]) -> u64
    ensures { result ≡ (clock_in state.now).counts.conceals }
{
    from_words(state).conceals()
}

#[unsafe(no_mangle)]
pub extern "C" fn audio_metrics_late(state: &[u64; 14]) -> u64
    ensures { result ≡ (clock_in state.now).counts.late }
{
    from_words(state).late()
}

#[unsafe(no_mangle)]
pub extern "C" fn audio_metrics_overflow(state: &[u64; 14]) -> u64
    ensures { result ≡ (clock_in state.now).counts.overflow }
{
    from_words(state).overflow()
}

#[unsafe(no_mangle)]
pub extern "C" fn audio_metrics_resyncs(state: &[u64; 14]) -> u64
    ensures { result ≡ (clock_in state.now).counts.resyncs }
{
    from_words(state).resyncs()
}
