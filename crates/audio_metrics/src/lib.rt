// Clock offset, round trip, one-way delay and buffer depths, as rigflow-client/src/audio_metrics.rs keeps them.
// The state goes in by value and comes back. A number that is not there yet is a None.
// The functions take what the receiver's questions let through: a held clock, and numbers in the range of question 9.
#![tactic(auto)]

ghost use Rattle.std.specs.Prelude.{◌≡◌, ◌^◌, ◌<◌, ◌≤◌, true, unsigned_abs};
ghost use Rattle.std.proofs.Math.Option.{some};
ghost use Rattle.model.specs.Questions.{clock_bound, offset_allowed, timing_held, one_way_held, clock_held, probe_allowed, depth_allowed};
ghost use Rattle.model.specs.Sizes.{between};
ghost use Rattle.calls.specs.Views.{model_counts};
ghost use Rattle.model.specs.Clock.{fresh_clock, step_toward, least_after, passes_gate, timing_after, record_probe, bits64, one_way_in_range, one_way_of, one_way_after, record_one_way, samples_ms, depth_after, record_depth, record_transmit, in_ms, one_way_ms, round_trip_ms, offset_ms, depth_ms, depth_peak_ms};
ghost use Rattle.audio_metrics.specs.Requires.{StepFits, ProbeFits, Probed, OneWayFits};
ghost use Rattle.audio_metrics.specs.Views.{timing_of, known_of, delay_of, depth_known, depth_of, reading_of, clock_of};

use calls::{DepthCounts, OneWayTimes};
use udp_framing::words::as_signed;

const SAMPLE_RATE_HZ: f32 = 48_000.0;

// The weight of a new depth in the slow average.
const JITTER_AVG_ALPHA: f32 = 0.01;

// What a new depth leaves of the recent peak.
const JITTER_PEAK_DECAY: f32 = 0.999;

// The same of the transmit ring.
const TX_RING_PEAK_DECAY: f32 = 0.99;

// Server − client clock offset, the last round trip, and the running least that gates clean offsets.
#[derive(Clone, Copy, PartialEq, Eq, Debug)]
pub struct ClockTiming {
    pub offset_ns: i64,
    pub rtt_ns: u64,
    pub min_rtt_ns: u64,
}

// Depth of the receive buffer in ms: a slow average and a decaying recent peak.
#[derive(Clone, Copy, PartialEq, Debug)]
pub struct JitterDepth {
    pub jitter_avg_ms: f32,
    pub jitter_peak_ms: f32,
}

#[derive(Clone, Copy, PartialEq, Debug, Default)]
pub struct AudioMetrics {
    pub timing: Option<ClockTiming>,
    pub one_way: Option<i64>,
    pub jitter: Option<JitterDepth>,
    pub counts: DepthCounts,
    pub tx_ring_peak_ms: f32,
}

// From `old` an `n`th of the way to `new`, toward zero.
fn step_toward(n: i64, old: i64, new: i64) -> i64
    requires { StepFits n old new }
    ensures { result ≡ step_toward (unsigned_abs n) old new }
{
    old + (new - old) / n
}

// The running least after a round trip: it relaxes by a 64th, and a smaller round trip replaces it.
#[tactic(auto, unfolding(model::specs::Clock::least_after))]
fn min_after(rtt: u64, least: u64) -> u64
    requires { least < 2 ^ 62 }
    ensures { result ≡ least_after rtt least }
{
    rtt.min(least + least / 64)
}

// Only a round trip within 1.5 times of the least moves the offset.
#[tactic(auto, unfolding(model::specs::Clock::passes_gate))]
fn is_clean(rtt: u64, least: u64) -> bool
    requires { least < 2 ^ 62 }
    ensures { result ≡ passes_gate rtt least }
{
    rtt <= least + least / 2
}

// The numbers after a probe whose round trip is above 0. The round trip is stored before the gate.
#[tactic(auto, using(crate::proofs::Signed::fits_wide_law), unfolding(model::specs::Clock::timing_after, model::specs::Clock::least_after))]
fn timing_after(timing: Option<ClockTiming>, offset: i64, rtt: u64) -> ClockTiming
    requires { ProbeFits (timing_of timing) offset rtt }
    ensures { known_of result ≡ timing_after offset rtt (timing_of timing) }
{
    let Some(t) = timing else {
        return ClockTiming {
            offset_ns: offset,
            rtt_ns: rtt,
            min_rtt_ns: rtt,
        };
    };
    let least = min_after(rtt, t.min_rtt_ns);
    let offset_ns = if is_clean(rtt, least) {
        step_toward(4, t.offset_ns, offset)
    } else {
        t.offset_ns
    };
    ClockTiming {
        offset_ns,
        rtt_ns: rtt,
        min_rtt_ns: least,
    }
}

// The one-way delay that the two times and the offset give: the low 64 bits of receive − send + offset.
fn one_way_of(times: OneWayTimes, offset: i64) -> i64
    ensures { result ≡ one_way_of times.receive times.send offset }
{
    let delay = times.receive.wrapping_sub(times.send);
    as_signed(delay.wrapping_add(as_bits(offset)))
}

// The bits of a signed number.
#[tactic(auto, using(model::proofs::CastLaws::bits_of_signed))]
pub fn as_bits(n: i64) -> u64
    ensures { result ≡ bits64 n }
{
    n.cast_unsigned()
}

// The one-way delay after a new one: the first is taken whole, then an eighth step.
#[tactic(auto, unfolding(model::specs::Clock::one_way_after))]
fn one_way_after(old: Option<i64>, new: i64) -> i64
    requires { OneWayFits (delay_of old) new }
    ensures { some result ≡ one_way_after new (delay_of old) }
{
    old.map_or(new, |known| step_toward(8, known, new))
}

// A number of samples in ms.
// Question 9's bound stays a fact of each contract: callers hold a plain number, which they ask about once, and each reading
// of it would take a type of its own apart.
#[tactic(auto, using(model::proofs::Constants::f_48000, model::proofs::Constants::f_1000), unfolding(model::specs::Clock::samples_ms))]
fn samples_ms(samples: usize) -> f32
    requires { samples ≤ 16777216 }
    ensures { result ≡ samples_ms samples }
{
    samples as f32 / SAMPLE_RATE_HZ * 1000.0
}

// The depth after a new one: the first is taken whole, then the average moves slowly and the peak decays.
#[tactic(auto, unfolding(model::specs::Clock::depth_after))]
fn depth_after(jitter: Option<JitterDepth>, now: f32) -> JitterDepth
    ensures { depth_known result ≡ depth_after «now» (depth_of jitter) }
{
    let Some(d) = jitter else {
        return JitterDepth {
            jitter_avg_ms: now,
            jitter_peak_ms: now,
        };
    };
    JitterDepth {
        jitter_avg_ms: d.jitter_avg_ms + JITTER_AVG_ALPHA * (now - d.jitter_avg_ms),
        jitter_peak_ms: floats::max(now, d.jitter_peak_ms * JITTER_PEAK_DECAY),
    }
}

// Nanoseconds in ms.
#[tactic(auto, using(model::proofs::Constants::f_1000000), unfolding(model::specs::Clock::in_ms))]
fn in_ms(ns: i64) -> f32
    ensures { result ≡ in_ms ns }
{
    floats::nearest_i64_to_f32(ns) / 1000000.0
}

// The bound of question 9, either way.
#[tactic(auto, unfolding(model::specs::Questions::offset_allowed))]
fn offset_in_range(offset_ns: i64) -> bool
    ensures { result ≡ offset_allowed offset_ns }
{
    (-4611686018427387903..=4611686018427387903).contains(&offset_ns)
}

// Question 9 of a probe. A round trip of 0 or less is let through, and then ignored.
#[tactic(auto, unfolding(model::specs::Questions::probe_allowed))]
pub fn probe_in_range(offset_ns: i64, rtt_ns: i64) -> bool
    ensures { result ≡ probe_allowed offset_ns rtt_ns }
{
    offset_in_range(offset_ns) && rtt_ns <= 4611686018427387903
}

// Question 9 of a depth.
#[tactic(auto, unfolding(model::specs::Questions::depth_allowed))]
pub fn depth_in_range(samples: usize) -> bool
    ensures { result ≡ depth_allowed samples }
{
    samples <= 16777216
}

// A round trip that was taken is above 0.
fn rtt_could_be_held(rtt: u64) -> bool
    ensures { result ≡ between 1 clock_bound rtt }
{
    (1..=4611686018427387903).contains(&rtt)
}

#[tactic(auto, unfolding(model::specs::Questions::timing_held))]
fn timing_could_be_held(timing: Option<ClockTiming>) -> bool
    ensures { result ≡ timing_held (timing_of timing) }
{
    timing.is_none_or(|t| {
        offset_in_range(t.offset_ns)
            && rtt_could_be_held(t.rtt_ns)
            && rtt_could_be_held(t.min_rtt_ns)
    })
}

// The delays that are taken: −1 s to 5 s.
#[tactic(auto, unfolding(model::specs::Clock::one_way_in_range))]
fn one_way_in_range(one_way_ns: i64) -> bool
    ensures { result ≡ one_way_in_range one_way_ns }
{
    (-1_000_000_000..=5_000_000_000).contains(&one_way_ns)
}

// A delay is there only with an offset.
#[tactic(auto, unfolding(model::specs::Questions::one_way_held))]
fn one_way_could_be_held(timing: Option<ClockTiming>, one_way: Option<i64>) -> bool
    ensures { result ≡ one_way_held (timing_of timing) (delay_of one_way) }
{
    one_way.is_none_or(|one_way_ns| timing.is_some() && one_way_in_range(one_way_ns))
}

impl AudioMetrics {
    // Before the first number.
    #[tactic(auto, using(model::proofs::Constants::f_zero))]
    pub fn new() -> AudioMetrics
        ensures { clock_of result ≡ fresh_clock }
    {
        Self::default()
    }

    // Question 3 of a clock: could a run of calls have left these numbers?
    #[tactic(auto, unfolding(model::specs::Questions::clock_held))]
    pub fn could_be_held(self) -> bool
        ensures { result ≡ clock_held (clock_of self) }
    {
        timing_could_be_held(self.timing) && one_way_could_be_held(self.timing, self.one_way)
    }

    // Feeds one clock-offset probe. A round trip of 0 or less is ignored.
    #[tactic(auto, using(crate::proofs::Probe::above_zero, crate::proofs::Probe::not_above_ignored, crate::proofs::Probe::above_not_negative, crate::proofs::Probe::clock_timing_below, crate::proofs::Probe::probe_offset_below, crate::proofs::Probe::probe_round_trip_below), unfolding(model::specs::Clock::record_probe))]
    pub fn record_probe(self, offset_ns: i64, rtt_ns: i64) -> AudioMetrics
        requires { Probed (clock_of self) offset_ns rtt_ns }
        ensures { clock_of result ≡ record_probe offset_ns rtt_ns (clock_of self) }
    {
        if rtt_ns <= 0 {
            return self;
        }
        let next = timing_after(self.timing, offset_ns, rtt_ns as u64);
        AudioMetrics {
            timing: Some(next),
            ..self
        }
    }

    // Feeds one audio packet's two times. Nothing is known before an offset, and absurd delays are ignored.
    #[tactic(auto, using(crate::proofs::DelayRange::in_range_below, crate::proofs::DelayRange::clock_delay_below), unfolding(model::specs::Clock::record_one_way, model::specs::Clock::one_way_updated))]
    pub fn record_audio_one_way(self, times: OneWayTimes) -> AudioMetrics
        requires { clock_held (clock_of self) ≡ true }
        ensures { clock_of result ≡ record_one_way times.receive times.send (clock_of self) }
    {
        let Some(t) = self.timing else {
            return self;
        };
        let new = one_way_of(times, t.offset_ns);
        if !one_way_in_range(new) {
            return self;
        }
        let next = one_way_after(self.one_way, new);
        AudioMetrics {
            one_way: Some(next),
            ..self
        }
    }

    // Publishes the depth of the receive buffer with its four counts.
    #[tactic(auto, unfolding(model::specs::Clock::record_depth))]
    pub fn publish_jitter(self, samples: usize, counts: DepthCounts) -> AudioMetrics
        requires { samples ≤ 16777216 }
        ensures { clock_of result ≡ record_depth samples (model_counts counts) (clock_of self) }
    {
        let next = depth_after(self.jitter, samples_ms(samples));
        AudioMetrics {
            jitter: Some(next),
            counts,
            ..self
        }
    }

    // Notes the depth of the transmit ring.
    #[tactic(auto, unfolding(model::specs::Clock::record_transmit))]
    pub fn note_tx_ring(self, samples: usize) -> AudioMetrics
        requires { samples ≤ 16777216 }
        ensures { clock_of result ≡ record_transmit samples (clock_of self) }
    {
        let peak = self.tx_ring_peak_ms;
        AudioMetrics {
            tx_ring_peak_ms: floats::max(samples_ms(samples), peak * TX_RING_PEAK_DECAY),
            ..self
        }
    }

    // The smoothed one-way delay in ms, once known.
    #[tactic(auto, unfolding(model::specs::Clock::one_way_ms))]
    pub fn rx_one_way_ms(self) -> Option<f32>
        ensures { reading_of result ≡ one_way_ms (clock_of self) }
    {
        self.one_way.map(in_ms)
    }

    // The last round trip in ms, once a probe was taken.
    #[tactic(auto, using(crate::proofs::Readings::timing_reading, model::proofs::Constants::f_1000000), unfolding(model::specs::Clock::round_trip_ms, model::specs::Clock::in_ms))]
    pub fn rtt_ms(self) -> Option<f32>
        ensures { reading_of result ≡ round_trip_ms (clock_of self) }
    {
        self.timing
            .map(|t| floats::nearest_u64_to_f32(t.rtt_ns) / 1000000.0)
    }

    // The clock offset in ms, once known.
    #[tactic(auto, unfolding(model::specs::Clock::offset_ms))]
    pub fn clock_offset_ms(self) -> Option<f32>
        ensures { reading_of result ≡ offset_ms (clock_of self) }
    {
        self.timing.map(|t| in_ms(t.offset_ns))
    }

    // The average depth of the receive buffer in ms: 0 before the first.
    #[tactic(auto, using(model::proofs::Constants::f_zero), unfolding(model::specs::Clock::depth_ms))]
    pub fn jitter_ms(self) -> f32
        ensures { result ≡ depth_ms (clock_of self) }
    {
        self.jitter.map_or(0.0, |d| d.jitter_avg_ms)
    }

    // Its recent peak in ms: 0 before the first.
    #[tactic(auto, using(model::proofs::Constants::f_zero), unfolding(model::specs::Clock::depth_peak_ms))]
    pub fn jitter_peak_ms(self) -> f32
        ensures { result ≡ depth_peak_ms (clock_of self) }
    {
        self.jitter.map_or(0.0, |d| d.jitter_peak_ms)
    }

    // The recent peak of the transmit ring in ms.
    pub fn tx_ring_peak_ms(self) -> f32
        ensures { result ≡ (clock_of self).transmit_peak }
    {
        self.tx_ring_peak_ms
    }

    pub fn conceals(self) -> u64
        ensures { result ≡ (clock_of self).counts.conceals }
    {
        self.counts.conceals
    }

    pub fn late(self) -> u64
        ensures { result ≡ (clock_of self).counts.late }
    {
        self.counts.late
    }

    pub fn overflow(self) -> u64
        ensures { result ≡ (clock_of self).counts.overflow }
    {
        self.counts.overflow
    }

    pub fn resyncs(self) -> u64
        ensures { result ≡ (clock_of self).counts.resyncs }
    {
        self.counts.resyncs
    }
}
