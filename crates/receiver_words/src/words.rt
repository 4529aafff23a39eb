// Sizes, a stream's counts, a jitter buffer and a screen in words. (Words are read by their place: of an array of their length
// each would be named twice, there and as the field.)
ghost use Rattle.std.specs.Prelude.{◌≡◌, ◌≤◌, length};
ghost use Rattle.receiver_words.specs.Words.{sizes_in, sequence_in, counts_in, buffer_in, row_in, display_in, screen_in, known_word, sequence_word, count_words, buffer_words, row_words, screen_words};

use audio_metrics_words::{float_from, float_word};
use calls::Sizes;
use jitter_buffer::JitterBuffer;
use reassembler::OpenRow;
use udp::{Display, StreamCounts};
use udp_packets::Screen;

pub fn sizes_from(w: &[u64]) -> Sizes
    requires { 6 ≤ length w.now }
    ensures { result ≡ sizes_in w.now }
{
    Sizes {
        packet: w[0] as usize,
        target: w[1] as usize,
        max: w[2] as usize,
        bins: w[3] as usize,
        width: w[4] as usize,
        height: w[5] as usize,
    }
}

// ---- a sequence, if there is one

#[tactic(auto, unfolding(crate::specs::Words::sequence_in))]
fn sequence_from(known: u64, sequence: u64) -> Option<u32>
    ensures { result ≡ sequence_in known sequence }
{
    (known != 0).then_some((sequence % 4294967296) as u32)
}

fn known_word(sequence: Option<u32>) -> u64
    ensures { result ≡ known_word sequence }
{
    u64::from(sequence.is_some())
}

fn sequence_word(sequence: Option<u32>) -> u64
    ensures { result ≡ sequence_word sequence }
{
    sequence.map_or(0, |s| u64::from(s))
}

// ---- counts

pub fn counts_from(w: &[u64]) -> StreamCounts
    requires { 5 ≤ length w.now }
    ensures { result ≡ counts_in w.now }
{
    StreamCounts {
        packets: w[0],
        dropped: w[1],
        late: w[2],
        last: sequence_from(w[3], w[4]),
    }
}

pub fn count_words(c: StreamCounts) -> [u64; 5]
    ensures { result ≡ count_words c }
{
    [
        c.packets,
        c.dropped,
        c.late,
        known_word(c.last),
        sequence_word(c.last),
    ]
}

// ---- a jitter buffer

pub fn buffer_from(w: &[u64]) -> JitterBuffer
    requires { 14 ≤ length w.now }
    ensures { result ≡ buffer_in w.now }
{
    JitterBuffer {
        max_observed_buffered_samples: w[0] as usize,
        next_sequence: sequence_from(w[1], w[2]),
        pending_len: w[3] as usize,
        playout_len: w[4] as usize,
        consecutive_conceals: w[5] as usize,
        packets_received: w[6],
        packets_inserted: w[7],
        packets_missing_concealed: w[8],
        packets_dropped_late: w[9],
        packets_dropped_overflow: w[10],
        packets_dropped_invalid_size: w[11],
        resync_count: w[12],
        filled: w[13],
    }
}

pub fn buffer_words(j: JitterBuffer) -> [u64; 14]
    ensures { result ≡ buffer_words j }
{
    [
        j.max_observed_buffered_samples as u64,
        known_word(j.next_sequence),
        sequence_word(j.next_sequence),
        j.pending_len as u64,
        j.playout_len as u64,
        j.consecutive_conceals as u64,
        j.packets_received,
        j.packets_inserted,
        j.packets_missing_concealed,
        j.packets_dropped_late,
        j.packets_dropped_overflow,
        j.packets_dropped_invalid_size,
        j.resync_count,
        j.filled,
    ]
}

// ---- a screen

#[tactic(auto, unfolding(crate::specs::Words::row_in))]
fn row_from(w: &[u64]) -> Option<OpenRow>
    requires { 5 ≤ length w.now }
    ensures { result ≡ row_in w.now }
{
    if w[0] == 0 {
        return None;
    }
    Some(OpenRow {
        row_seq: (w[1] % 65536) as u16,
        total_bins: w[2] as usize,
        filled: w[3] as usize,
        done: w[4] != 0,
    })
}

fn display_from(w: &[u64]) -> Display
    requires { 15 ≤ length w.now }
    ensures { result ≡ display_in w.now }
{
    Display {
        adaptive: w[7] != 0,
        top: float_from(w[8]),
        range: float_from(w[9]),
        zoom: float_from(w[10]),
        smoothing: float_from(w[11]),
        top_estimate: float_from(w[12]),
        floor_estimate: float_from(w[13]),
        range_estimate: float_from(w[14]),
    }
}

pub fn screen_from(w: &[u64]) -> Screen
    requires { 15 ≤ length w.now }
    ensures { result ≡ screen_in w.now }
{
    Screen {
        row: row_from(w),
        spectrum_len: w[5] as usize,
        smooth_len: w[6] as usize,
        display: display_from(w),
    }
}

// A match: map_or takes a clause at its closure, which says the array again.
fn row_words(row: Option<OpenRow>) -> [u64; 5]
    ensures { result ≡ row_words row }
{
    let Some(open) = row else {
        return [0, 0, 0, 0, 0];
    };
    [
        1,
        open.row_seq as u64,
        open.total_bins as u64,
        open.filled as u64,
        u64::from(open.done),
    ]
}

#[tactic(auto, unfolding(crate::specs::Words::screen_words))]
pub fn screen_words(s: Screen) -> [u64; 15]
    ensures { result ≡ screen_words s }
{
    let d = s.display;
    let t = row_words(s.row);
    [
        t[0],
        t[1],
        t[2],
        t[3],
        t[4],
        s.spectrum_len as u64,
        s.smooth_len as u64,
        u64::from(d.adaptive),
        float_word(d.top),
        float_word(d.range),
        float_word(d.zoom),
        float_word(d.smoothing),
        float_word(d.top_estimate),
        float_word(d.floor_estimate),
        float_word(d.range_estimate),
    ]
}
