// Replays the tape on standard input and prints what was heard: document 01's replay, over areas of 16,384 words and a tape
// of at most 65,536 bytes. A tape that is longer, and input or output that fails, are told on standard error too.
#![tactic(auto)]

mod output;

use crate::output::Areas;
use input::ReadFailed;
use std::io::Stdin;
use std::{fmt, io};
use thiserror::Error;

// Why the replay is not printed to its end.
#[derive(Debug, Drop, Error)]
enum Failure {
    #[error("standard input could not be read")]
    Unread(#[from] ReadFailed),
    #[error("standard output could not be written")]
    Unwritten(#[from] io::Error),
}

// A sentence on standard error. One that cannot be written is left out.
fn say(rt: &impl Eprint, sentence: impl fmt::Display + Drop) {
    let _ = eprintln!(rt; "replay: {sentence}");
}

// The tape that was read.
fn replay(rt: &impl Print, tape: &[u8]) -> io::Result<()> {
    let mut areas = Areas {
        fs: [0.0; 16384],
        us: [0; 16384],
        text: [0; 8192],
    };
    output::print(rt, tape, &mut areas)
}

// Of a longer tape one byte more than the limit is read: it is told, and refused by its replay.
fn run(rt: &(impl Print + Eprint), mut stdin: Stdin, tape: &mut [u8]) -> Result<(), Failure> {
    let n = input::read_all(&mut stdin, tape)?;
    if 65536 < n {
        say(rt, "the tape is longer than 65536 bytes");
    }
    replay(rt, &tape[..n])?;
    Ok(())
}

fn main(rt: HostRuntime) {
    let mut tape = [0u8; 65537];
    if let Err(why) = run(&rt, rt.stdin(), &mut tape) {
        say(&rt, why);
    }
}
