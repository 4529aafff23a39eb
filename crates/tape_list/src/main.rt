// Lists the tape on standard input: a line for its setup, for each call and for its end, each with the place where it
// stands. Of a tape that is refused what stands before the first bad word is listed, and then the place of that word.
// A tape of more than 524,288 bytes, and input or output that fails, are told on standard error.
#![tactic(auto)]

mod listing;

use input::ReadFailed;
use std::io;
use std::io::Stdin;
use thiserror::Error;

// Why the tape is not listed, or not to its end.
#[derive(Debug, Drop, Error)]
enum Failure {
    #[error("standard input could not be read")]
    Unread(#[from] ReadFailed),
    #[error("the tape is longer than 524288 bytes")]
    TooLong,
    #[error("standard output could not be written")]
    Unwritten(#[from] io::Error),
}

// Of a longer tape one byte more than the limit is read.
fn run(rt: &impl Print, mut stdin: Stdin, tape: &mut [u8]) -> Result<(), Failure> {
    let n = input::read_all(&mut stdin, tape)?;
    if 524288 < n {
        return Err(Failure::TooLong);
    }
    listing::list(rt, &tape[..n])?;
    Ok(())
}

fn main(rt: HostRuntime) {
    let mut tape = [0u8; 524289];
    if let Err(why) = run(&rt, rt.stdin(), &mut tape) {
        // A sentence that cannot be written is left out.
        let _ = eprintln!(rt; "tape_list: {why}");
    }
}
