// What a datagram does to a stream's counts, and what a completed row does to smoothing and to the display, as
// rigflow-client/src/net/udp.rs has it. A state goes in by value and comes back; a row's values stand in a lent slice.
// Every float of a row may be a NaN.
#![tactic(auto)]

ghost use Rattle.std.specs.Prelude.{◌≡◌, ◌*◌, ◌≤◌, length, take, nat_le};
ghost use Rattle.model.specs.Counts.{fresh_counts, counted};
ghost use Rattle.model.specs.Scaling.{smoothing_after, display_after, estimated, estimates_toward, shown_top, shown_range};
ghost use Rattle.model.specs.Questions.{most_calls, stream_held};
ghost use Rattle.spectrum_utils.specs.Promises.{InFront};
ghost use Rattle.udp.specs.Requires.{CountsFit};
ghost use Rattle.udp.specs.Views.{counts_of, display_of};

use jitter_asking::counter_held;
use spectrum_utils::FloorAndTop;
use std::cmp::Ordering;

// How fast the estimates follow a row.
const ADAPTIVE_NORMALIZATION_ALPHA: f32 = 0.05;

// What shows above the estimated top.
const ADAPTIVE_TOP_HEADROOM_DB: f32 = 3.0;

// The range that the estimates give is kept between these.
const ADAPTIVE_MIN_RANGE_DB: f32 = 30.0;

const ADAPTIVE_MAX_RANGE_DB: f32 = 100.0;

// The sequence counts of one stream, and its last sequence, if there was one.
#[derive(Clone, Copy, PartialEq, Eq, Debug, Default)]
pub struct StreamCounts {
    pub packets: u64,
    pub dropped: u64,
    pub late: u64,
    pub last: Option<u32>,
}

impl StreamCounts {
    // Zeros, and no last sequence.
    pub fn new() -> Self
        ensures { counts_of result ≡ fresh_counts }
    {
        Self::default()
    }

    // Question 3 for a stream's counts: whether a receiver of so many accepted calls could hold them.
    #[tactic(auto, unfolding(model::specs::Questions::stream_held, model::specs::Bytes::all))]
    pub fn could_be_held(self, calls: u64) -> bool
        ensures { result ≡ stream_held (calls * most_calls) (counts_of self) }
    {
        counter_held(self.packets, calls)
            && counter_held(self.dropped, calls)
            && counter_held(self.late, calls)
    }
}

// Question 3 for the number of incoming datagrams.
pub fn incoming_could_be_held(incoming: u64, calls: u64) -> bool
    ensures { result ≡ nat_le incoming (calls * most_calls) }
{
    counter_held(incoming, calls)
}

// Counts a datagram of the stream. A sequence above the expected one drops those between; one below it is late. The
// last sequence is always replaced.
#[tactic(auto, unfolding(model::specs::Counts::counted, model::specs::Counts::dropped_by, model::specs::Counts::late_by, model::specs::Counts::is_below, model::specs::Framing::next_sequence))]
pub fn update_sequence_stats(counts: StreamCounts, sequence: u32) -> StreamCounts
    requires { CountsFit (counts_of counts) }
    ensures { counts_of result ≡ counted sequence (counts_of counts) }
{
    let after = StreamCounts {
        packets: counts.packets + 1,
        last: Some(sequence),
        ..counts
    };
    let Some(previous) = counts.last else {
        return after;
    };
    let expected = previous.wrapping_add(1);
    match sequence.cmp(&expected) {
        Ordering::Greater => StreamCounts {
            dropped: counts.dropped + ((sequence - expected) as u64),
            ..after
        },
        Ordering::Less => StreamCounts {
            late: counts.late + 1,
            ..after
        },
        Ordering::Equal => after,
    }
}

// Smooths a row into the running one: copied on a length change or at a weight of 1, else each bin moves toward the row's.
// `smooth` has room for the row's bins, and `len` of its values are in use. The answer is how many are then. (Its steps are those of
// `update_spectrum_db`, but for the weight of 1: one function for both would take that test and the closure, and be as long as this one.)
pub fn smooth_row(row: &[f32], smooth: &mut [f32], len: usize, smoothing: f32) -> usize
    requires { (length row.now ≤ length smooth.old) × (len ≤ length smooth.old) }
    ensures { InFront (smoothing_after smoothing row.now (take len smooth.old)) smooth.old smooth.new result }
{
    let w = 1.0 - 0.9 * floats::clamp(smoothing, 0.0, 1.0);
    let bins = row.len();
    let shown = &mut smooth[..bins];
    if len != bins || w >= 1.0 {
        shown.copy_from_slice(row);
        return bins;
    }
    spectrum_utils::zip_in_place(shown, row, |old, new| old + w * (new - old));
    bins
}

// Display settings and running estimates of a channel.
#[derive(Clone, Copy)]
pub struct Display {
    pub adaptive: bool,
    pub top: f32,
    pub range: f32,
    pub zoom: f32,
    pub smoothing: f32,
    pub top_estimate: f32,
    pub floor_estimate: f32,
    pub range_estimate: f32,
}

// With adaptive on, the estimates follow the row, if it has finite values. With it off nothing is worked out. The contents
// of `work` are free afterwards.
#[tactic(auto, using(crate::proofs::Adaptive::stays_with_adaptive_off))]
pub fn update_adaptive_waterfall_display(display: Display, row: &[f32], work: &mut [f32]) -> Display
    requires { (length row.now ≤ 65535) × (length row.now ≤ length work.old) }
    ensures { display_of result ≡ display_after row.now (display_of display) }
{
    if !display.adaptive {
        return display;
    }
    spectrum_utils::estimate_row_floor_and_top_db(row, work).map_or(
        display,
        |levels| estimates_toward(display, levels),
    )
}

// One estimate moved toward a row's value.
#[tactic(auto, using(model::proofs::Constants::f_one), unfolding(model::specs::Scaling::estimated))]
fn estimated(old: f32, new: f32) -> f32
    ensures { result ≡ estimated old new }
{
    (1.0 - ADAPTIVE_NORMALIZATION_ALPHA) * old + ADAPTIVE_NORMALIZATION_ALPHA * new
}

// The estimates moved toward a row's floor and top.
#[tactic(auto, using(model::proofs::Constants::f_three, model::proofs::Constants::f_30, model::proofs::Constants::f_100), unfolding(model::specs::Scaling::estimates_toward, model::specs::Scaling::adaptive_range, model::specs::Scaling::adaptive_top))]
fn estimates_toward(display: Display, levels: FloorAndTop) -> Display
    ensures { display_of result ≡ estimates_toward levels.floor levels.top (display_of display) }
{
    let top = estimated(display.top_estimate, levels.top);
    let floor = estimated(display.floor_estimate, levels.floor);
    let range = floats::clamp(
        top + ADAPTIVE_TOP_HEADROOM_DB - floor,
        ADAPTIVE_MIN_RANGE_DB,
        ADAPTIVE_MAX_RANGE_DB,
    );
    Display {
        top_estimate: top,
        floor_estimate: floor,
        range_estimate: range,
        ..display
    }
}

// The top that a row is drawn with.
#[tactic(auto, using(model::proofs::Constants::f_three), unfolding(model::specs::Scaling::shown_top, model::specs::Scaling::adaptive_top))]
pub fn shown_top(display: Display) -> f32
    ensures { result ≡ shown_top (display_of display) }
{
    if display.adaptive {
        return display.top_estimate + ADAPTIVE_TOP_HEADROOM_DB;
    }
    display.top
}

// The range that a row is drawn with.
#[tactic(auto, unfolding(model::specs::Scaling::shown_range))]
pub fn shown_range(display: Display) -> f32
    ensures { result ≡ shown_range (display_of display) }
{
    if display.adaptive {
        return display.range_estimate;
    }
    display.range
}
