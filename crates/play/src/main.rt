// Replays the tape in a file of any length, at every setup that document 01 allows, and prints what was heard.
//   play [--summary] FILE
// The file is read twice, by windows: its tape is checked first, then it is replayed. What came of it stands on descriptor 3
// too, where that is open, as one word: over, refused, failed or unwritten. The areas take 139 MB of the stack; a tape that is
// refused takes half a megabyte.
#![tactic(auto)]

mod printing;
mod saying;

ghost use Rattle.io.specs.Counts.{IsPrefixLen};

use playback_parts::Form;
use printing::{Areas, FLOATS, WORDS, Wanted, not_accepted};
use saying::NotPlayed;
use std::env::{Env, FillError};

const WINDOW: usize = 524288;

// The replay over areas that are made here, and lent whole.
fn lend(wanted: Wanted<'_>, window: &mut [u8]) -> Result<(), NotPlayed> {
    let mut areas = Areas {
        fs: [0.0; FLOATS],
        us: [0; WORDS],
        samples: [0.0; 65535],
        text: [0; 65536],
    };
    printing::replay(wanted, window, &mut areas)
}

// How many arguments there are, the program's name among them.
fn argument_count(rt: HostRuntime) -> usize {
    let mut word = io::buffer();
    (0..usize::MAX)
        .find(|&i| matches!(rt.arg(i, &mut word), Err(FillError::NotPresent)))
        .unwrap_or(usize::MAX)
}

// The argument that so many from the end begin with, at the front of the bytes.
fn argument(rt: HostRuntime, left: usize, word: &mut [u8; 4096]) -> usize
    ensures { IsPrefixLen result word.new }
{
    let count = argument_count(rt);
    if count < left {
        return 0;
    }
    rt.arg(count - left, word).unwrap_or(0)
}

// Takes the last so many arguments. (A function that calls itself takes no large memory into its own: so the areas are laid
// out only where a replay begins.)
fn take(rt: HostRuntime, left: usize, form: Form) -> Result<(), NotPlayed> {
    if left == 0 {
        return Err(NotPlayed::Usage);
    }
    let mut word = io::buffer();
    let n = argument(rt, left, &mut word);
    if &word[..n] == b"--summary".as_slice() {
        return take(rt, left - 1, Form::Summary);
    }
    if left != 1 {
        return Err(NotPlayed::Usage);
    }
    let file = files::open(&rt, &word[..n]).ok_or(NotPlayed::Unreadable)?;
    let mut window = [0u8; WINDOW];
    let setup = tape_files::check(&file, &mut window).map_err(not_accepted)?;
    let wanted = Wanted {
        file: &file,
        setup,
        form,
        shown: progress::begin(&rt.stdout(), &rt.stderr()),
    };
    lend(wanted, &mut window)
}

// Without the program's name no argument is left.
fn main(rt: HostRuntime) {
    let left = argument_count(rt).saturating_sub(1);
    saying::tell(take(rt, left, Form::Full));
}
