// Question 3 for a channel's jitter buffer, and for a counter: whether a receiver could hold them.
#![tactic(auto)]

ghost use Rattle.std.specs.Prelude.{◌≡◌, ◌*◌, ◌≤◌, length, leb};
ghost use Rattle.model.specs.Sizes.{most_waiting};
ghost use Rattle.model.specs.Questions.{most_calls, strictly_rising};
ghost use Rattle.calls.specs.Views.{sizes_of};
ghost use Rattle.jitter_buffer.specs.View.{counters_of};
ghost use Rattle.jitter_asking.specs.Fields.{largest_counter};
ghost use Rattle.jitter_asking.specs.Promises.{StartTold, HeldTold};

use calls::Sizes;
use jitter_buffer::JitterBuffer;
use sizes::AllowedSizes;

// Whether the sequences are in strictly rising order: each pair, from the last one on. The loop has no early way
// out, as `is_sorted_by` and `all` have, so that many pairs are compared at once: by those it takes 2.3 to 3.8 times as long.
fn rises(us: &[u32]) -> bool
    ensures { result ≡ strictly_rising us.now }
{
    let mut rising = true;
    for &[u, next] in us.array_windows::<2>().rev() {
        if next <= u {
            rising = false;
        }
    }
    rising
}

// Whether a counter is at most calls × 4,294,967,295. Where the product does not fit, every counter is.
pub fn counter_held(counter: u64, calls: u64) -> bool
    ensures { result ≡ leb counter (calls * most_calls) }
{
    counter <= calls.saturating_mul(4294967295)
}

// The largest of the eight counters: one question in place of eight, which take 1.9 times as long.
fn largest_counter(j: JitterBuffer) -> u64
    ensures { result ≡ largest_counter (counters_of j) }
{
    let a = j.packets_received.max(j.packets_inserted);
    let b = j.packets_missing_concealed.max(j.packets_dropped_late);
    let c = j
        .packets_dropped_overflow
        .max(j.packets_dropped_invalid_size);
    let d = j.resync_count.max(j.filled);
    a.max(b).max(c.max(d))
}

// Whether next fits what waits: none below it, and before the start an empty queue and too little.
#[tactic(auto, using(sizes::proofs::Bounds::packet_times_few), unfolding(crate::specs::Fields::next_asked))]
fn start_held(z: AllowedSizes, j: JitterBuffer, us: &[u32]) -> bool
    requires { (j.pending_len ≤ most_waiting (sizes_of z.sizes)) × (j.pending_len ≤ length us.now) }
    ensures { StartTold z.sizes j us.now result }
{
    let z = z.sizes;
    match j.next_sequence {
        None => j.playout_len == 0 && z.packet * j.pending_len < z.target,
        Some(s) => j.pending_len == 0 || s <= us[0],
    }
}

// Question 3 for one channel: whether a receiver of so many accepted calls could hold this buffer.
// It takes any numbers and any slice, and answers no where the sizes are not allowed or the slice is not
// exactly the part.
#[tactic(auto, using(model::proofs::SizeLaws::allowed, crate::proofs::Asked::no_part))]
pub fn could_be_held(j: JitterBuffer, z: Sizes, us: &[u32], calls: u64) -> bool
    ensures { HeldTold z j us.now calls result }
{
    let Some(sizes) = AllowedSizes::of(z) else {
        return false;
    };
    if sizes.most_waiting() != us.len() || us.len() < j.pending_len {
        return false;
    }
    let rising = rises(&us[..j.pending_len]);
    let start = start_held(sizes, j, us);
    let counted = counter_held(largest_counter(j), calls);
    rising
        && j.playout_len < z.target + z.packet
        && j.consecutive_conceals <= 2
        && start
        && counted
        && j.max_observed_buffered_samples < z.max + z.target + 2 * z.packet
}
