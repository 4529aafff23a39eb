// Readings: where a channel's row and picture stand in the lent areas, and how much a channel buffers. They take any
// sizes and any state. The counters are told by `report_of`; the clock's numbers in ms are functions of AudioMetrics that ask
// nothing.
ghost use Rattle.std.specs.Prelude.{◌≡◌};
ghost use Rattle.calls.specs.Views.{sizes_of};
ghost use Rattle.receiver_state.specs.View.{row_place, channel_at};
ghost use Rattle.receiver_state.specs.Readings.{picture_place, place_in, buffered_in};

use crate::Receiver;
use crate::sides::{channel_of, starts};
use calls::{Refusal, Side, Sizes};
use jitter_buffer::JitterBuffer;
use sizes::AllowedSizes;

// Where a channel's row begins in the f32 area: the values of a completed row stand there. Sizes that question 1 refuses have
// no places.
#[tactic(auto, using(crate::proofs::Reading::float_start_bound, crate::proofs::Reading::row_at_bound))]
pub fn row_place(z: Sizes, side: Side) -> Option<usize>
    ensures { result ≡ place_in z (row_place (sizes_of z) side) }
{
    let sizes = AllowedSizes::of(z)?;
    let begin = starts(sizes, side);
    Some(begin.floats + sizes.section_offsets().row)
}

// Where a channel's picture begins in the u32 area: width × height colours, the top row first.
// Sizes that question 1 refuses have no places.
#[tactic(auto, using(crate::proofs::Reading::word_start_bound, sizes::proofs::Bounds::most_waiting_bound))]
pub fn picture_place(z: Sizes, side: Side) -> Option<usize>
    ensures { result ≡ place_in z (picture_place (sizes_of z) side) }
{
    let sizes = AllowedSizes::of(z)?;
    Some(starts(sizes, side).words + sizes.most_waiting())
}

// The samples that a buffer holds over sections of these sizes. Question 1 refuses the sizes, or question 3 a buffer in which
// more waits or is queued than the sections hold.
#[tactic(auto, using(model::proofs::SizeLaws::allowed))]
fn buffered_in(z: Sizes, jitter: JitterBuffer) -> Result<usize, Refusal>
    ensures { result ≡ buffered_in z jitter }
{
    let sizes = AllowedSizes::of(z).ok_or(Refusal::Sizes)?;
    if jitter.pending_len > sizes.most_waiting() || jitter.playout_len >= z.target + z.packet {
        return Err(Refusal::NotHeld);
    }
    Ok(jitter.buffered_samples(z))
}

// The samples that a channel buffers: those queued for play, and those of waiting packets; or the question that
// refuses the state.
pub fn buffered_samples(r: Receiver, side: Side) -> Result<usize, Refusal>
    ensures { result ≡ buffered_in r.sizes (channel_at side r).jitter }
{
    buffered_in(r.sizes, channel_of(r, side).jitter)
}
