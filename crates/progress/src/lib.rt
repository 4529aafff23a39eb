// How far a replay is, on standard error where that is a terminal: percent of the file and minutes of sound.
#![tactic(auto)]

use calls::Side;
use std::fmt;
use std::fmt::Write;
use std::io::IsTerminal;
use tape::Call;

// A file descriptor.
const STDERR_FILENO: i32 = 2;

// Samples in a minute of sound.
const MINUTE: u64 = 2880000;

// Standard error. A piece that cannot be written is left out. (By its descriptor: to hold the runtime's handle, `begin` would take a
// `Stderr` where it takes whatever may be a terminal, which asks more of its callers.)
#[derive(Clone, Copy)]
struct Errors;

impl fmt::Write for Errors {
    fn write_str(&mut self, piece: &str) -> fmt::Result {
        io::write_all(STDERR_FILENO, piece.as_bytes());
        Ok(())
    }
}

// What is told.
#[derive(Clone, Copy)]
pub struct Shown {
    // Whether the output goes to a terminal too.
    pub lines: bool,
    // The percentage that was told last.
    pub percent: Option<usize>,
    // The samples that were played.
    pub a: u64,
    pub b: u64,
}

// How far a replay is; None where it is not told.
pub type Progress = Option<Shown>;

// With the output, and where it is told how far a replay is.
pub fn begin<O: IsTerminal, E: IsTerminal>(output: &O, errors: &E) -> Progress {
    errors.is_terminal().then(|| Shown {
        lines: output.is_terminal(),
        percent: None,
        a: 0,
        b: 0,
    })
}

impl Shown {
    // With a call.
    fn heard(self, call: Call) -> Shown {
        let Call::Play { side, samples } = call else {
            return self;
        };
        let samples = u64::from(samples);
        match side {
            Side::A => Shown {
                a: self.a.saturating_add(samples),
                ..self
            },
            Side::B => Shown {
                b: self.b.saturating_add(samples),
                ..self
            },
        }
    }

    // With the calls of a window from one place up to another.
    fn all_heard(self, window: &[u8], from: usize, to: usize) -> Shown {
        let mut shown = self;
        let mut at = from;
        // There are no more calls than words. (No `while`: that each call takes words is a law and two files of proof for its measure.)
        for _ in from..to {
            match tape::reader::call_at(window, at) {
                Ok(Some(placed)) if at < to => {
                    shown = shown.heard(placed.call);
                    at = placed.next;
                }
                _ => return shown,
            }
        }
        shown
    }

    // Where the output goes to the terminal too, each is a line of its own; else it stands over the last.
    fn tell(self, percent: usize) {
        let minutes = self.a.max(self.b) / MINUTE;
        let (before, behind) = if self.lines { ("", "\n") } else { ("\r", "") };
        let mut errors = Errors;
        let _ = write!(
            errors,
            "{before}{percent} % of the file, {minutes} minutes of sound{behind}"
        );
    }
}

fn percent_of(done: usize, all: usize) -> usize {
    let part = all / 100;
    if part == 0 {
        return 100;
    }
    (done / part).min(100)
}

// The calls of a window from one place up to another were made, and so many bytes of the file are done with.
pub fn further(
    p: Progress,
    window: &[u8],
    from: usize,
    to: usize,
    done: usize,
    all: usize,
) -> Progress {
    let shown = p?.all_heard(window, from, to);
    let percent = percent_of(done, all);
    if shown.percent != Some(percent) {
        shown.tell(percent);
    }
    Some(Shown {
        percent: Some(percent),
        ..shown
    })
}

// The line's end.
pub fn end(p: Progress) {
    if let Some(Shown { lines: false, .. }) = p {
        let _ = Errors.write_str("\n");
    }
}
