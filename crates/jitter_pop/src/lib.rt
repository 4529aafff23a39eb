// A play of a channel's jitter buffer: samples come out of the playout queue, the oldest are dropped where it
// grows too long, and what is short is silence. The buffer and its lent memory are those of `jitter_buffer`.
// Sizes, buffer and slices go in one by one: a struct of them would need a clause on each slice's reference in each contract.
#![tactic(auto)]

ghost use Rattle.std.specs.Prelude.{◌≡◌, ◌+◌, ◌^◌, ◌≤◌, ◌<◌, length, replicate};
ghost use Rattle.model.specs.Floats.{f0};
ghost use Rattle.model.specs.JitterBuffer.{fill, drop_count, play_filled};
ghost use Rattle.calls.specs.Views.{sizes_of};
ghost use Rattle.jitter_buffer.specs.View.{view_of};
ghost use Rattle.jitter_buffer.specs.Promises.{Ready};
ghost use Rattle.jitter_pop.specs.Fields.{silence_popped};
ghost use Rattle.jitter_pop.specs.Promises.{CanHandOut, HandedOut, CanPlay, PlayedAs, PopDone};

use calls::{PlayedSamples, Sizes};
use jitter_buffer::JitterBuffer;
use sizes::AllowedSizes;

// What a play leaves and answers.
#[derive(Clone, Copy)]
pub struct Popped {
    pub buffer: JitterBuffer,
    pub played: PlayedSamples,
}

// How many samples a play drops of a queue of so many: the 16 oldest, where latency grows above target.
#[tactic(auto, using(crate::proofs::Plays::drop_none_short, crate::proofs::Plays::drop_none_little, crate::proofs::Plays::drop_some))]
fn apply_drift_correction(z: Sizes, queued: usize) -> usize
    ensures { result ≡ drop_count (sizes_of z) queued }
{
    if queued <= z.target {
        return 0;
    }
    let excess = queued - z.target;
    if excess < z.packet / 4 {
        return 0;
    }
    queued.min(16)
}

// Fills the output from the queue, behind the samples that are dropped, and with silence past its end.
#[tactic(auto, using(model::proofs::SizeLaws::allowed, jitter_buffer::proofs::Places::queue_low))]
fn hand_out(
    z: AllowedSizes,
    j: JitterBuffer,
    fs: &mut [f32],
    out: &mut [f32],
    dropped: usize,
) -> Popped
    requires { CanHandOut z.sizes j (length fs.old) (length out.old) dropped }
    ensures { HandedOut z.sizes j fs.old out.old dropped result fs.new out.new }
{
    let n = out.len();
    let left = j.playout_len - dropped;
    let taken = n.min(left);
    let short = n - taken;
    let rest = left - taken;
    let queue = z.section_offsets().queue;
    let from = queue + dropped;
    let after = from + taken;
    out[..taken].copy_from_slice(&fs[from..after]);
    areas::fill(out, taken, short, 0.0);
    areas::move_down(fs, after, queue, rest);
    Popped {
        buffer: JitterBuffer {
            playout_len: rest,
            filled: j.filled + short as u64,
            ..j
        },
        played: PlayedSamples {
            taken,
            dropped,
            short,
        },
    }
}

// A play before the start: silence, and the queue is left alone.
fn pop_silence(j: JitterBuffer, out: &mut [f32]) -> Popped
    requires { j.filled + length out.old < 2 ^ 64 }
    ensures { (result ≡ silence_popped (length out.old) j) × (out.new ≡ replicate (length out.old) f0) }
{
    let n = out.len();
    areas::fill(out, 0, n, 0.0);
    Popped {
        buffer: JitterBuffer {
            filled: j.filled + n as u64,
            ..j
        },
        played: PlayedSamples {
            taken: 0,
            dropped: 0,
            short: n,
        },
    }
}

// A play after the start: fill, drop, take.
fn pop_filled(
    z: AllowedSizes,
    j: JitterBuffer,
    fs: &mut [f32],
    us: &mut [u32],
    out: &mut [f32],
) -> Popped
    requires { CanPlay z.sizes j fs.old us.old (length out.old) }
    ensures { PlayedAs z.sizes (play_filled f0 (sizes_of z.sizes) (length out.old) (fill f0 (sizes_of z.sizes) (view_of z.sizes j fs.old us.old))) result fs.new us.new out.new }
{
    let b = jitter_buffer::fill_playout(z, j, fs, us);
    let queued = b.playout_len;
    let dropped = apply_drift_correction(z.sizes, queued);
    hand_out(z, b, fs, out, dropped)
}

// Pops audio into the output. Before the start it is silence; past the end of the queue, too. That the sizes are allowed stands
// in `Ready`, beside what they are asked of, so the call takes them as they are and writes `AllowedSizes` down once.
pub fn pop_samples(
    j: JitterBuffer,
    z: Sizes,
    fs: &mut [f32],
    us: &mut [u32],
    out: &mut [f32],
) -> Popped
    requires { Ready z j fs.old us.old × (length out.old ≤ 65535) }
    ensures { PopDone z j fs.old us.old out.old result fs.new us.new out.new }
{
    match j.next_sequence {
        None => pop_silence(j, out),
        Some(_) => pop_filled(AllowedSizes { sizes: z }, j, fs, us, out),
    }
}
