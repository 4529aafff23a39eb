// What shows of a channel, and the colours, against a line's words.
use crate::compare;
use crate::compare::Difference;
use crate::session::Session;
use crate::words::Line;
use calls::{Side, Sizes};
use receiver_state::readings::{picture_place, row_place};
use receiver_state::sides::channel_of;
use udp_packets::Screen;

// The places of a picture.
fn pixels_of(z: Sizes) -> usize {
    if sizes::allowed(z) {
        return z.width * z.height;
    }
    0
}

// Row, spectrum and smoothing buffer, which stand behind each other with room for `bins` values each.
fn rows(
    line: Line<'_>,
    screen: Screen,
    bins: usize,
    fs: &[f32],
    row: usize,
) -> Result<(), Difference> {
    let words = line.words;
    let spectrum = row.wrapping_add(bins);
    let smoothing = spectrum.wrapping_add(bins);
    // those of the row that is open, or was completed last
    let row_bins = screen.row.map_or(0, |r| r.total_bins);
    let values = |from, n| compare::each(fs, floats::to_bits, from, n, words);
    match line.letter {
        b'R' => values(row, row_bins),
        b'S' => values(spectrum, screen.spectrum_len),
        b'M' => values(smoothing, screen.smooth_len),
        _ => {
            let found = [
                compare::sum(fs, row, row_bins),
                compare::sum(fs, spectrum, screen.spectrum_len),
                compare::sum(fs, smoothing, screen.smooth_len),
            ];
            compare::numbers(&found, words)
        }
    }
}

fn picture(z: Sizes, side: Side, us: &[u32], words: &[u32]) -> Result<(), Difference> {
    match picture_place(z, side) {
        None => compare::length(0, words),
        Some(at) => compare::each(us, |x| x, at, pixels_of(z), words),
    }
}

pub(crate) fn look(line: Line<'_>, s: &Session) -> Result<(), Difference> {
    let words = line.words;
    let side = s.side;
    let z = s.receiver.sizes;
    let screen = channel_of(s.receiver, side).screen;
    match line.letter {
        b'K' => compare::colours(words),
        b'E' => compare::estimates(screen.display, words),
        b'P' => picture(z, side, &s.us, words),
        _ => match row_place(z, side) {
            None => compare::length(0, words),
            Some(row) => rows(line, screen, z.bins, &s.fs, row),
        },
    }
}

// What streams 1 and 2 have counted, each for itself.
pub(crate) fn counts(s: &Session, words: &[u32]) -> Result<(), Difference> {
    compare::counts(s.receiver.audio, words)?;
    compare::counts(s.receiver.waterfall, words)
}
