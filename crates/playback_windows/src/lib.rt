// The replay of a tape of which only a window is in memory. A replay's place is counted from the window's first word; where that word stands
// in the whole tape no function asks. What a step promises holds of every tape that the window can be of. No function asks anything of
// its caller. (What is lent to be changed goes in slice by slice, as in `playback::stepping`.)
#![tactic(auto)]

ghost use Rattle.std.specs.Prelude.{◌≡◌};
ghost use Rattle.playback_pieces.specs.Gathered.{moment};
ghost use Rattle.playback_windows.specs.Promises.{SteppedIn, moved_on, BegunIn};
ghost use Rattle.playback_opening.specs.Beginnings.{RefusedAt};
ghost use Rattle.playback_windows.specs.Pieces.{ReachOf, PiecesIn};

use playback::Step;
use playback::stepping::step_as;
use playback_opening::{NotBegun, refuse, set_up};
use playback_parts::{Form, Playback};
use playback_pieces::{Gathered, pieces};
use tape::Setup;
use tape_windows::{LONGEST_CALL, Window};

// The next piece of what is printed of the tape, at the front of the text: as through the whole tape, with places counted from the window's
// first word. None: a call comes next, and the window ends too early to have it whole, and is not the last. Nothing is changed then.
pub fn step_in(
    w: Playback,
    fs: &mut [f32],
    us: &mut [u32],
    window: Window<'_>,
    samples: &mut [f32],
    text: &mut [u8],
    form: Form,
) -> Option<Step>
    ensures { SteppedIn form window.entry.bytes.now window.entry.last w fs.old us.old samples.old text.old result fs.new us.new samples.new text.new }
{
    if w.doing.is_call() && !window.has_words(w.place, LONGEST_CALL) {
        return None;
    }
    Some(step_as(w, fs, us, window.bytes, samples, text, form))
}

// The first place from which on the window may not have a call whole; none where it is the last.
fn reach(window: Window<'_>) -> Option<usize>
    ensures { ReachOf window.entry.bytes.now window.entry.last result }
{
    if window.last {
        return None;
    }
    Some((window.bytes.len() / 4 + 1).saturating_sub(LONGEST_CALL))
}

// As many pieces of what is printed of the tape as the text has room for, at its front. They stop before a call that the window may
// not have whole.
pub fn pieces_in(
    w: Playback,
    fs: &mut [f32],
    us: &mut [u32],
    window: Window<'_>,
    samples: &mut [f32],
    text: &mut [u8],
    form: Form,
) -> Gathered
    ensures { PiecesIn form window.entry.bytes.now window.entry.last (moment w fs.old us.old samples.old) text.old result (moment result.playback fs.new us.new samples.new) text.new }
{
    let until = reach(window);
    pieces(w, fs, us, window.bytes, until, samples, text, form)
}

// The same replay, with its place counted from so many words further on: those words of the window are done with.
pub fn moved_on(w: Playback, words: usize) -> Playback
    ensures { result ≡ moved_on w words }
{
    Playback {
        place: w.place.saturating_sub(words),
        ..w
    }
}

// The beginning, by the setup that stands at the tape's front, once its calls are accepted. Only the u32 area is written.
pub fn begin_in(
    setup: Setup,
    fs: &[f32],
    us: &mut [u32],
    text: &mut [u8],
) -> Result<Playback, NotBegun>
    ensures { BegunIn setup fs.now us.old text.old result us.new text.new }
{
    set_up(setup, fs, us, text)
}

// A tape that is refused at a place, which is counted from the tape's first word.
pub fn refuse_in(text: &mut [u8], place: usize) -> NotBegun
    ensures { RefusedAt place text.old result text.new }
{
    refuse(text, place)
}
