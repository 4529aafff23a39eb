// Makes the calls of a tape again and again, so that it can be measured how long a call takes. Standard input has the number
// of rounds in four bytes, the most significant first, and then a tape of at most 524,288 bytes; each round makes all calls of
// the tape. Before it is handed over, an audio datagram of channel A gets the number of those before it as its sequence, and a
// waterfall datagram the round's number as its row's, so that no packet is late and no row is complete already. At the end
// the sum of the last samples' bit patterns and the number of accepted calls are printed.
#![tactic(auto)]

mod rounds;

use crate::rounds::Areas;
use input::ReadFailed;
use std::io::Stdin;
use tape::Setup;
use tape::reader::setup_of;
use thiserror::Error;
use udp_framing::big_endian::BigEndian;

// What is printed of the rounds.
#[derive(Clone, Copy)]
struct Totals {
    // The last samples' bit patterns, added up.
    patterns: u64,
    // The accepted calls.
    calls: u64,
}

// Why nothing was repeated.
#[derive(Debug, Drop, Error)]
enum Failure {
    #[error("standard input could not be read")]
    Unread(#[from] ReadFailed),
    #[error("there is no number of rounds")]
    NoRounds,
    #[error("the tape is refused")]
    TapeRefused,
    #[error("the setup is refused")]
    SetupRefused,
}

// All rounds over the areas that were lent.
fn repeat(tape: &mut [u8], count: u32, areas: &mut Areas) -> Result<Totals, Failure> {
    let Setup { sizes, a, b } = setup_of(tape).map_err(|_| Failure::TapeRefused)?;
    let begun = receiver_setup::setup(sizes, a, b, &areas.fs, &mut areas.us);
    let begun = begun.map_err(|_| Failure::SetupRefused)?;
    let r = rounds::all(begun, tape, count, areas);
    Ok(Totals {
        patterns: rounds::sum_of(&areas.samples),
        calls: r.calls,
    })
}

// The words for a picture of 1024 × 412 on each channel are more than one function may both make and lend as a slice:
// the areas are made here, and lent whole.
fn lend(tape: &mut [u8], count: u32) -> Result<Totals, Failure> {
    let mut areas = Areas {
        fs: [0.0; 600000],
        us: [0; 900000],
        samples: [0.0; 65535],
    };
    repeat(tape, count, &mut areas)
}

fn run(mut stdin: Stdin, bytes: &mut [u8]) -> Result<Totals, Failure> {
    let n = input::read_all(&mut stdin, bytes)?;
    if n < 4 {
        return Err(Failure::NoRounds);
    }
    let count = u32::read_from(bytes, 0);
    lend(&mut bytes[4..n], count)
}

// A line that cannot be written is left out.
fn main(rt: HostRuntime) {
    let mut bytes = [0u8; 524292];
    let _ = match run(rt.stdin(), &mut bytes) {
        Ok(Totals { patterns, calls }) => println!(rt; "{patterns} {calls}"),
        Err(why) => eprintln!(rt; "repeat_tape: {why}"),
    };
}
