// The replay of the tape in a file of any length, by windows of the file, to standard output. What a read leaves in memory, and what a
// write does, has no definition: what is promised by one window is promised of every tape that it is a window of, and of the pieces that are
// written. What is promised of all windows speaks of readings that there are, and not of those that were made, so it says little without
// the promises by one. No public function asks anything of its caller. (What is lent to be changed goes in slice by slice, the memory for
// a window too, as in `playback::stepping`.)
#![tactic(auto)]

pub mod places;

ghost use Rattle.std.specs.Prelude.{false, ◌≡◌, ℕ, ◌+◌, ◌*◌, ◌≤◌, length};
ghost use Rattle.playback_pieces.specs.Gathered.{moment};
ghost use Rattle.playback_files.specs.declared.NotReplayed.TheVariants as NotReplayed;
ghost use Rattle.playback_files.specs.Windows.{not_replayed, ThroughIn, Through, Gone, SameReplay, StepsTo, NextStepsTo, AllStepsTo, EndsBegun, WentBegun, Replayed};

use crate::places::Playing;
use files::{Failure, File, read_part};
use playback_opening::NotBegun;
use playback_parts::{Doing, Form, Playback};
use playback_pieces::{Gathered, Stop};
use playback_windows::{begin_in, moved_on, pieces_in};
use progress::Progress;
use tape::Setup;
use tape_files::SHORTEST_WINDOW;
use tape_windows::Window;

// A file descriptor: the runtime's handle would be asked of each caller of `replay`.
const STDOUT_FILENO: i32 = 1;

// Why a replay did not come to its end.
#[derive(Clone, Copy, PartialEq, Eq, Debug)]
pub enum NotReplayed {
    // The setup is refused, and its line, of so many bytes, stands at the front of the text. It is not written.
    Refused(usize),
    // The window is shorter than the longest call, or the text than a piece.
    NoRoom,
    // Standard output could not be written.
    Unwritten,
    // A part of the file is not there.
    Failed(Failure),
    // The file's tape is not the one whose setup this is and that was checked.
    Changed,
}

impl From<NotBegun> for NotReplayed {
    ghost from_gives = { λ begun why. why ≡ not_replayed begun };

    fn from(begun: NotBegun) -> NotReplayed {
        match begun {
            NotBegun::NoRoom => NotReplayed::NoRoom,
            NotBegun::Refused(n) => NotReplayed::Refused(n),
        }
    }
}

impl From<Failure> for NotReplayed {
    ghost from_gives = { λ failure why. why ≡ NotReplayed.Failed failure };

    fn from(failure: Failure) -> NotReplayed {
        NotReplayed::Failed(failure)
    }
}

// Where a replay goes on after a window; nowhere where all of it was written.
pub type Went = Result<Option<Playing>, NotReplayed>;

// All pieces by a window, as many at a time as the text has room for, each time written at once.
fn write_through(
    w: Playback,
    fs: &mut [f32],
    us: &mut [u32],
    window: Window<'_>,
    samples: &mut [f32],
    text: &mut [u8],
    form: Form,
) -> Result<Gathered, NotReplayed>
    ensures { Through form window.entry.bytes.now window.entry.last w fs.old us.old samples.old result fs.new us.new samples.new }
{
    let mut p = w;
    // No `while`: that no more comes is known only once a text is written.
    loop {
        let gathered = pieces_in(p, fs, us, window, samples, text, form);
        if !io::write_all(STDOUT_FILENO, &text[..gathered.bytes]) {
            return Err(NotReplayed::Unwritten);
        }
        // Where the text was full, something must stand in it.
        if gathered.stop != Stop::Full || gathered.bytes == 0 {
            return Ok(gathered);
        }
        p = gathered.playback;
    }
}

// Where a replay goes on after a window of a file of so many bytes. (That a window has room for the longest call stays a fact, here
// and below, as in `tape_files`.)
fn went_by(p: Playing, t: Gathered, all: usize, window: Window<'_>) -> Went
    requires { (4 * p.base + length window.bytes.now ≤ all) × (window.last ≡ false → 65540 ≤ length window.bytes.now) × ThroughIn window.bytes.now window.last p.playback t }
    ensures { Gone all p.base result × SameReplay p t result }
{
    let from = p.playback.place;
    let to = t.playback.place;
    if t.stop != Stop::Far {
        progress::further(p.progress, window.bytes, from, to, all, all);
        return match t.playback.doing {
            Doing::Done => Ok(None),
            _ => Err(NotReplayed::Changed),
        };
    }
    if window.last {
        return Err(NotReplayed::Changed);
    }
    let base = p.base + to;
    let progress = progress::further(p.progress, window.bytes, from, to, 4 * base, all);
    let playback = moved_on(t.playback, to);
    Ok(Some(Playing {
        base,
        playback,
        progress,
    }))
}

// Goes through a window of a file of so many bytes.
fn by_window(
    p: Playing,
    all: usize,
    window: Window<'_>,
    fs: &mut [f32],
    us: &mut [u32],
    samples: &mut [f32],
    text: &mut [u8],
    form: Form,
) -> Went
    requires { (4 * p.base + length window.bytes.now ≤ all) × (window.last ≡ false → 65540 ≤ length window.bytes.now) }
    ensures { Gone all p.base result × StepsTo form window.entry.bytes.now window.entry.last p.base (moment p.playback fs.old us.old samples.old) result fs.new us.new samples.new × WentBegun result }
{
    let t = write_through(p.playback, fs, us, window, samples, text, form)?;
    went_by(p, t, all, window)
}

// Reads the next window, and goes through it.
fn next_window(
    p: Playing,
    file: &File,
    window: &mut [u8],
    fs: &mut [f32],
    us: &mut [u32],
    samples: &mut [f32],
    text: &mut [u8],
    form: Form,
) -> Went
    requires { (4 * p.base ≤ file.now.bytes) × (65540 ≤ length window.old) }
    ensures { Gone file.now.bytes p.base result × NextStepsTo form file.now (length window.old) p.base (moment p.playback fs.old us.old samples.old) result fs.new us.new samples.new × WentBegun result }
{
    // So it is known that the number of bytes, and with it the place of the window's first byte, fits.
    let all = file.bytes;
    let part = read_part(file, 4 * p.base, window)?;
    let read = Window {
        bytes: &window[..part.count],
        last: part.last,
    };
    by_window(p, all, read, fs, us, samples, text, form)
}

// All windows.
fn all_windows(
    begun: Playing,
    file: &File,
    window: &mut [u8],
    fs: &mut [f32],
    us: &mut [u32],
    samples: &mut [f32],
    text: &mut [u8],
    form: Form,
) -> Result<(), NotReplayed>
    requires { (4 * begun.base ≤ file.now.bytes) × (65540 ≤ length window.old) }
    ensures { AllStepsTo form file.now (length window.old) begun.base (moment begun.playback fs.old us.old samples.old) result fs.new us.new samples.new × EndsBegun result }
{
    let mut p = begun;
    while let Some(next) = next_window(p, file, window, fs, us, samples, text, form)? {
        p = next;
    }
    Ok(())
}

// The replay of a tape that was accepted, whose setup this is, by a window of at least 65,540 bytes: all of it was written, or why
// not. The progress is one that has begun.
pub fn replay(
    file: &File,
    setup: Setup,
    form: Form,
    shown: Progress,
    window: &mut [u8],
    fs: &mut [f32],
    us: &mut [u32],
    samples: &mut [f32],
    text: &mut [u8],
) -> Result<(), NotReplayed>
    ensures { Replayed form file.now setup (length window.old) fs.old us.old samples.old text.old result fs.new us.new samples.new text.new }
{
    if window.len() < SHORTEST_WINDOW {
        return Err(NotReplayed::NoRoom);
    }
    let first = Playing {
        base: 0,
        playback: begin_in(setup, fs, us, text)?,
        progress: shown,
    };
    let ended = all_windows(first, file, window, fs, us, samples, text, form);
    progress::end(shown);
    ended
}
