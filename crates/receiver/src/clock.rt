// The clock's calls: a probe, a one-way time, and the two depths. They leave both areas as they are.
ghost use Rattle.std.specs.Prelude.{◌≡◌, true, []};
ghost use Rattle.model.specs.Receiver.{probe, one_way, depth, transmit_depth};
ghost use Rattle.model.specs.Questions.{clock_held};
ghost use Rattle.calls.specs.Views.{model_counts};
ghost use Rattle.audio_metrics.specs.Views.{clock_of};
ghost use Rattle.receiver_state.specs.View.{answer_of};
ghost use Rattle.receiver_state.specs.Promises.{Called};
ghost use Rattle.receiver.specs.Promises.{ClockWorked};

use audio_metrics::AudioMetrics;
use calls::{DepthCounts, OneWayTimes, ProbeTimes, Refusal};
use receiver_state::asking::asked;
use receiver_state::counted::{accepted, answered, with_clock};
use receiver_state::{Answer, Answered, Receiver};

// A call's work on the clock, where questions 1 to 4 let it through, and its numbers are in their range.
// (State and areas go in one by one, as in every call: the state is a value, and the memory is the caller's.)
fn clocked<F: FnOnce(AudioMetrics) -> AudioMetrics>(
    r: Receiver,
    fs: &[f32],
    us: &[u32],
    in_range: bool,
    call: F,
) -> Result<(Receiver, Answer), Refusal>
    requires { in_range ≡ true → clock_held (clock_of r.clock) ≡ true → F.pre call r.clock }
    ensures { ClockWorked F.post call in_range r fs.now us.now result }
{
    asked(r, fs, us)?;
    if !in_range {
        return Err(Refusal::Range);
    }
    Ok(accepted(with_clock(r, call(r.clock))))
}

// A clock-offset probe.
pub fn probe(r: Receiver, fs: &[f32], us: &[u32], t: ProbeTimes) -> Answered
    ensures { Called (probe t.t1 t.t2 t.t3 t.t4) r fs.now us.now (answer_of result.answer []) result.receiver fs.now us.now }
{
    let measured = udp_framing::clock_offset_rtt(t);
    let in_range = audio_metrics::probe_in_range(measured.offset, measured.rtt);
    answered(
        r,
        clocked(r, fs, us, in_range, |clock| {
            clock.record_probe(measured.offset, measured.rtt)
        }),
    )
}

// An audio packet's two times, in nanoseconds.
pub fn one_way(r: Receiver, fs: &[f32], us: &[u32], times: OneWayTimes) -> Answered
    ensures { Called (one_way times.receive times.send) r fs.now us.now (answer_of result.answer []) result.receiver fs.now us.now }
{
    answered(
        r,
        clocked(r, fs, us, true, |clock| clock.record_audio_one_way(times)),
    )
}

// The depth of the receive buffer, with four counts.
#[tactic(auto, unfolding(model::specs::Questions::depth_allowed))]
pub fn depth(r: Receiver, fs: &[f32], us: &[u32], samples: usize, counts: DepthCounts) -> Answered
    ensures { Called (depth samples (model_counts counts)) r fs.now us.now (answer_of result.answer []) result.receiver fs.now us.now }
{
    let in_range = audio_metrics::depth_in_range(samples);
    answered(
        r,
        clocked(r, fs, us, in_range, |clock| {
            clock.publish_jitter(samples, counts)
        }),
    )
}

// The depth of the transmit ring.
#[tactic(auto, unfolding(model::specs::Questions::depth_allowed))]
pub fn transmit_depth(r: Receiver, fs: &[f32], us: &[u32], samples: usize) -> Answered
    ensures { Called (transmit_depth samples) r fs.now us.now (answer_of result.answer []) result.receiver fs.now us.now }
{
    let in_range = audio_metrics::depth_in_range(samples);
    answered(
        r,
        clocked(r, fs, us, in_range, |clock| clock.note_tx_ring(samples)),
    )
}
