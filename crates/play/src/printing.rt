// What is printed and said of the tape in a file.
ghost use Rattle.std.specs.Prelude.{◌≤◌, length};

use crate::saying::{NotPlayed, put};
use files::File;
use playback_files::NotReplayed;
use playback_opening::NotBegun;
use playback_parts::{Form, PIECE};
use playback_windows::refuse_in;
use progress::Progress;
use tape::Setup;
use tape_files::NotAccepted;

// The line of a refusal, so many bytes.
fn refused(text: &[u8], n: usize) -> NotPlayed
    requires { n ≤ length text.now }
{
    if put(&text[..n]) {
        NotPlayed::Refused
    } else {
        NotPlayed::Unwritten
    }
}

// The line of a tape that is refused at a place.
fn refuse(place: usize, text: &mut [u8]) -> NotPlayed {
    match refuse_in(text, place) {
        NotBegun::Refused(n) => refused(text, n),
        NotBegun::NoRoom => NotPlayed::Unwritten,
    }
}

// A tape that is not accepted. Where its words are bad, its line is printed.
pub fn not_accepted(why: NotAccepted) -> NotPlayed {
    match why {
        NotAccepted::Bad(bad) => {
            let mut text = [0u8; PIECE];
            refuse(bad.place, &mut text)
        }
        NotAccepted::Failed(failure) => failure.into(),
        NotAccepted::NoRoom => NotPlayed::Unreadable,
    }
}

// A tape that was accepted, in a file, and how its replay is printed and told.
#[derive(Clone, Copy)]
pub struct Wanted<'a> {
    pub file: &'a File,
    pub setup: Setup,
    pub form: Form,
    pub shown: Progress,
}

// What the largest setup asks for.
pub const FLOATS: usize = 868277;

pub const WORDS: usize = 33816576;

// What is lent to a replay, beside the window. (Not one type with that of `replay_vectors`, by const parameters: it would take a
// library, and four numbers in each program, for six lines.)
#[derive(Drop)]
pub struct Areas {
    pub fs: [f32; FLOATS],
    pub us: [u32; WORDS],
    pub samples: [f32; 65535],
    pub text: [u8; 65536],
}

// The replay of a tape that was accepted.
pub fn replay(wanted: Wanted<'_>, window: &mut [u8], areas: &mut Areas) -> Result<(), NotPlayed> {
    let Wanted {
        file,
        setup,
        form,
        shown,
    } = wanted;
    match playback_files::replay(
        file,
        setup,
        form,
        shown,
        window,
        &mut areas.fs,
        &mut areas.us,
        &mut areas.samples,
        &mut areas.text,
    ) {
        Ok(()) => Ok(()),
        Err(NotReplayed::Refused(n)) => Err(refused(&areas.text, n)),
        Err(NotReplayed::NoRoom | NotReplayed::Unwritten) => Err(NotPlayed::Unwritten),
        Err(NotReplayed::Failed(failure)) => Err(failure.into()),
        Err(NotReplayed::Changed) => Err(NotPlayed::Changed),
    }
}
