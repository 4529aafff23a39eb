// The clock's state in 14 words of 64 bits, for callers in other languages: flag, offset, round trip and least; flag and
// one-way delay; flag, average and peak of the depth; four counts; the transmit ring's peak.
// A flag of 0 says that the numbers after it are not there yet. A float stands by its bit pattern.
#![tactic(auto)]

ghost use Rattle.std.specs.Prelude.{◌≡◌};
ghost use Rattle.model.specs.Floats.{to_bits};
ghost use Rattle.audio_metrics.specs.Views.{timing_of, delay_of, depth_of, reading_of, clock_of};
ghost use Rattle.audio_metrics_words.specs.Words.{float_in, timing_in, delay_in, depth_in, clock_in, timing_words, delay_words, depth_words, clock_words, reading_word};
ghost use Rattle.audio_metrics_words.specs.Calls.{Callable, RecordedBy};

use audio_metrics::{AudioMetrics, ClockTiming, JitterDepth};
use calls::DepthCounts;

// The float of a word: its pattern is the low half.
#[tactic(auto, unfolding(crate::specs::Words::float_in))]
pub fn float_from(word: u64) -> f32
    ensures { result ≡ float_in word }
{
    floats::from_bits((word % 4294967296) as u32)
}

#[tactic(auto, using(model::proofs::CastLaws::signed_of_bits), unfolding(crate::specs::Words::timing_in))]
fn timing_from(known: u64, offset: u64, rtt: u64, least: u64) -> Option<ClockTiming>
    ensures { timing_of result ≡ timing_in known offset rtt least }
{
    (known != 0).then(|| ClockTiming {
        offset_ns: offset.cast_signed(),
        rtt_ns: rtt,
        min_rtt_ns: least,
    })
}

#[tactic(auto, using(model::proofs::CastLaws::signed_of_bits), unfolding(crate::specs::Words::delay_in))]
fn one_way_from(known: u64, one_way: u64) -> Option<i64>
    ensures { delay_of result ≡ delay_in known one_way }
{
    (known != 0).then(|| one_way.cast_signed())
}

#[tactic(auto, unfolding(crate::specs::Words::depth_in))]
fn jitter_from(known: u64, avg: u64, peak: u64) -> Option<JitterDepth>
    ensures { depth_of result ≡ depth_in known avg peak }
{
    (known != 0).then(|| JitterDepth {
        jitter_avg_ms: float_from(avg),
        jitter_peak_ms: float_from(peak),
    })
}

#[tactic(auto, unfolding(crate::specs::Words::clock_in))]
pub fn from_words(w: &[u64; 14]) -> AudioMetrics
    ensures { clock_of result ≡ clock_in w.now }
{
    AudioMetrics {
        timing: timing_from(w[0], w[1], w[2], w[3]),
        one_way: one_way_from(w[4], w[5]),
        jitter: jitter_from(w[6], w[7], w[8]),
        counts: DepthCounts {
            conceals: w[9],
            late: w[10],
            overflow: w[11],
            resyncs: w[12],
        },
        tx_ring_peak_ms: float_from(w[13]),
    }
}

// A match, here and in the words of a delay and a depth: map_or takes a clause at its closure, which says the array again.
#[tactic(auto, using(model::proofs::CastLaws::bits_of_signed), unfolding(crate::specs::Words::timing_words))]
fn timing_words(timing: Option<ClockTiming>) -> [u64; 4]
    ensures { result ≡ timing_words (timing_of timing) }
{
    match timing {
        Some(t) => [1, t.offset_ns.cast_unsigned(), t.rtt_ns, t.min_rtt_ns],
        None => [0; 4],
    }
}

#[tactic(auto, using(model::proofs::CastLaws::bits_of_signed), unfolding(crate::specs::Words::delay_words))]
fn one_way_words(one_way: Option<i64>) -> [u64; 2]
    ensures { result ≡ delay_words (delay_of one_way) }
{
    match one_way {
        Some(n) => [1, n.cast_unsigned()],
        None => [0; 2],
    }
}

// The word of a float: its pattern.
pub fn float_word(x: f32) -> u64
    ensures { result ≡ to_bits x }
{
    floats::to_bits(x) as u64
}

#[tactic(auto, unfolding(crate::specs::Words::depth_words))]
fn jitter_words(jitter: Option<JitterDepth>) -> [u64; 3]
    ensures { result ≡ depth_words (depth_of jitter) }
{
    match jitter {
        Some(d) => [1, float_word(d.jitter_avg_ms), float_word(d.jitter_peak_ms)],
        None => [0; 3],
    }
}

#[tactic(auto, unfolding(crate::specs::Words::clock_words))]
pub fn to_words(m: AudioMetrics) -> [u64; 14]
    ensures { result ≡ clock_words (clock_of m) }
{
    let t = timing_words(m.timing);
    let o = one_way_words(m.one_way);
    let d = jitter_words(m.jitter);
    [
        t[0],
        t[1],
        t[2],
        t[3],
        o[0],
        o[1],
        d[0],
        d[1],
        d[2],
        m.counts.conceals,
        m.counts.late,
        m.counts.overflow,
        m.counts.resyncs,
        float_word(m.tx_ring_peak_ms),
    ]
}

// 2^32 and the pattern of a reading, or 0 where there is none.
#[tactic(auto, unfolding(crate::specs::Words::reading_word))]
pub fn reading_word(reading: Option<f32>) -> u64
    ensures { result ≡ reading_word (reading_of reading) }
{
    reading.map_or(0, |x| 4294967296 + floats::to_bits(x) as u64)
}

// What a call of the clock leaves in the words, and whether it acts: on words that no receiver could hold, or where its
// numbers are not allowed, it leaves them and answers false.
#[tactic(auto, using(crate::proofs::Calls::acting, crate::proofs::Calls::not_held, crate::proofs::Calls::not_allowed, crate::proofs::Calls::refused_so))]
pub fn recorded<F: FnOnce(AudioMetrics) -> AudioMetrics>(
    state: &mut [u64; 14],
    allowed: bool,
    call: F,
) -> bool
    requires { Callable F.pre call allowed state.old }
    ensures { RecordedBy F.post call allowed state.old state.new result }
{
    let m = from_words(state);
    if !(m.could_be_held() && allowed) {
        return false;
    }
    *state = to_words(call(m));
    true
}
