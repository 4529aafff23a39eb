// What a datagram's payload does to a channel, as rigflow-client/src/net/udp.rs has it: samples go to the jitter buffer;
// a chunk goes to the row, and a row that it completes to the spectrum, to the estimates, to smoothing and to the picture.
// Sizes and slices go in one by one: a struct of them would need a clause on each slice's reference in each contract.
#![tactic(auto)]

ghost use Rattle.std.specs.Prelude.{◌≡◌, true, length, ◌≤◌};
ghost use Rattle.model.specs.Samples.{holds_samples};
ghost use Rattle.model.specs.Questions.{total_allowed};
ghost use Rattle.calls.specs.Views.{sizes_of};
ghost use Rattle.jitter_buffer.specs.Promises.{Ready};
ghost use Rattle.udp_packets.specs.Packets.{AudioHandled, row_asked, screen_asked, FreshScreen, ScreenReady, RowShown, WaterfallHandled};

use calls::Sizes;
use jitter_buffer::JitterBuffer;
use reassembler::{OpenRow, Pushed};
use udp::Display;
use udp_framing::big_endian::BigEndian;

// Whether a payload holds samples: 2 bytes or more, and of even length.
#[tactic(auto, unfolding(model::specs::Samples::holds_samples))]
fn holds_samples(payload: &[u8]) -> bool
    ensures { result ≡ holds_samples payload.now }
{
    payload.len() >= 2 && payload.len() % 2 == 0
}

// An audio payload: one that holds no samples stops here, another is pushed.
#[tactic(auto, using(crate::proofs::Audio::audio_pushes, crate::proofs::Audio::audio_stops))]
pub fn handle_audio_packet(
    jitter: JitterBuffer,
    z: Sizes,
    fs: &mut [f32],
    us: &mut [u32],
    sequence: u32,
    payload: &[u8],
) -> JitterBuffer
    requires { Ready z jitter fs.old us.old }
    ensures { AudioHandled z jitter fs.old us.old sequence payload.now result fs.new us.new }
{
    if !holds_samples(payload) {
        return jitter;
    }
    jitter_push::push_packet(jitter, z, fs, us, sequence, payload)
}

// What a channel shows, but for the values, which stand in lent memory: the row that chunks are stored in, how many bins of
// the spectrum and of smoothing are in use, and the display.
#[derive(Clone, Copy)]
pub struct Screen {
    pub row: Option<OpenRow>,
    // Of lent memory, which is lent with each call, a rule of the project: so both lengths stand here.
    pub spectrum_len: usize,
    pub smooth_len: usize,
    pub display: Display,
}

// Question 3 for a row: whether a receiver with rows of at most so many bins could hold it.
#[tactic(auto, unfolding(crate::specs::Packets::row_asked))]
fn row_could_be_held(row: Option<OpenRow>, bins: usize) -> bool
    ensures { result ≡ row_asked bins row }
{
    row.is_none_or(|open| {
        open.total_bins <= bins
            && open.filled / 2 < open.total_bins
            && open.done == (open.total_bins <= open.filled)
    })
}

impl Screen {
    // No row, nothing shown, and the settings that a receiver starts with; the three estimates come with its setup.
    #[tactic(auto, using(crate::proofs::Fresh::starts))]
    pub fn new(top_estimate: f32, floor_estimate: f32, range_estimate: f32) -> Self
        ensures { FreshScreen top_estimate floor_estimate range_estimate result }
    {
        Screen {
            row: None,
            spectrum_len: 0,
            smooth_len: 0,
            display: Display {
                adaptive: false,
                top: -35.0,
                range: 70.0,
                zoom: 1.0,
                smoothing: 0.0,
                top_estimate,
                floor_estimate,
                range_estimate,
            },
        }
    }

    // Question 3 for what a channel shows: whether a receiver with rows of at most so many bins could hold it. It takes any
    // numbers.
    #[tactic(auto, unfolding(crate::specs::Packets::screen_asked))]
    pub fn could_be_held(self, bins: usize) -> bool
        ensures { result ≡ screen_asked bins self }
    {
        row_could_be_held(self.row, bins) && self.spectrum_len <= bins && self.smooth_len <= bins
    }
}

// Question 8: a payload of 6 bytes or more names a total of at most so many bins.
#[tactic(auto, unfolding(model::specs::Questions::total_allowed, model::specs::Row::chunk_total))]
pub fn total_allowed(z: Sizes, payload: &[u8]) -> bool
    ensures { result ≡ total_allowed (sizes_of z) payload.now }
{
    payload.len() < 6 || (u16::read_from(payload, 2) as usize) <= z.bins
}

// Shows the row of n bins that `rows` begins with: the spectrum and the estimates follow the raw row, then smoothing does,
// and the smoothed row is drawn. In `rows` the spectrum stands from bins on and smoothing from 2 × bins on; `sorting` is room
// for a sort.
fn show_row(
    screen: Screen,
    z: Sizes,
    rows: &mut [f32],
    n: usize,
    sorting: &mut [f32],
    picture: &mut [u32],
) -> Screen
    requires { ScreenReady z screen (length rows.old) (length sorting.old) (length picture.old) × (1 ≤ n) × (n ≤ z.bins) }
    ensures { RowShown z screen rows.old n picture.old result rows.new picture.new }
{
    let bins = z.bins;
    let (front, behind) = rows.split_at_mut(bins);
    let row = &front[..n];
    let (spectrum, smooth) = behind.split_at_mut(bins);
    let spectrum_len = spectrum_utils::update_spectrum_db(row, spectrum, screen.spectrum_len);
    let display = udp::update_adaptive_waterfall_display(screen.display, row, sorting);
    let smooth_len = udp::smooth_row(row, smooth, screen.smooth_len, display.smoothing);
    waterfall::draw_row_db(
        picture,
        z.width,
        z.height,
        &smooth[..smooth_len],
        udp::shown_top(display),
        udp::shown_range(display),
        display.zoom,
    );
    Screen {
        spectrum_len,
        smooth_len,
        display,
        ..screen
    }
}

// A waterfall payload: its chunk goes to the row, and a row that it completes is shown.
pub fn handle_waterfall_packet(
    screen: Screen,
    z: Sizes,
    rows: &mut [f32],
    sorting: &mut [f32],
    picture: &mut [u32],
    payload: &[u8],
) -> Pushed<Screen>
    requires { ScreenReady z screen (length rows.old) (length sorting.old) (length picture.old) × (total_allowed (sizes_of z) payload.now ≡ true) }
    ensures { WaterfallHandled z screen rows.old picture.old payload.now result rows.new picture.new }
{
    let bins = z.bins;
    let pushed = reassembler::push_chunk(screen.row, &mut rows[..bins], payload);
    let filled = Screen {
        row: pushed.state,
        ..screen
    };
    let Some(n) = pushed.completed else {
        return Pushed {
            state: filled,
            completed: None,
        };
    };
    let shown = show_row(filled, z, rows, n, sorting, picture);
    Pushed {
        state: shown,
        completed: Some(n),
    }
}
