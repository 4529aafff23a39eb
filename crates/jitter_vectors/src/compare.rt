// What was found after a call, against what a session's line expects, and against what was there before.
ghost use Rattle.std.specs.Prelude.{◌≡◌, length};

use calls::{Refusal, Side};
use receiver_state::Receiver;
use receiver_state::readings::buffered_samples;
use receiver_state::sides::channel_of;

// The thirteen numbers of a channel's sound, in the order of a line.
pub const SOUND: [&str; 13] = [
    "received",
    "inserted",
    "concealed",
    "late",
    "overflow",
    "invalid size",
    "resyncs",
    "filled",
    "largest",
    "buffered",
    "started",
    "next",
    "run",
];

// The three numbers that a play answers.
pub const PLAY: [&str; 3] = ["taken", "dropped", "short"];

// What is not as expected: its name, its place where it is one of many, and both values.
#[derive(Clone, Copy)]
pub struct Difference {
    pub what: &'static str,
    pub place: Option<usize>,
    pub found: u64,
    pub expected: u64,
}

// A state that has no amount shows as a number that no session expects.
fn amount_word(a: Result<usize, Refusal>) -> u64 {
    match a {
        Ok(n) => n as u64,
        Err(Refusal::Sizes) => 18446744073709551615,
        Err(_) => 18446744073709551614,
    }
}

// The number of the question that refuses; 0 where nothing is refused.
fn question(refusal: Option<Refusal>) -> u64 {
    refusal.map_or(0, |why| u64::from(why.number()))
}

fn refused(found: u64, expected: u64) -> Difference {
    Difference {
        what: "refused by",
        place: Some(0),
        found,
        expected,
    }
}

// A line that is no call shows as one that question 99 refuses.
pub fn no_call() -> Difference {
    refused(99, 0)
}

// A call's refusal where it must be accepted. None: it answers what another call does.
pub fn refused_by(refusal: Option<Refusal>) -> Difference {
    refused(question(refusal), 0)
}

// A call's answer against what is expected of it: both accepted, or both refused by one question.
pub fn refused_alike<T: Drop, E: Drop>(
    answer: Result<T, Refusal>,
    expect: Result<E, Refusal>,
) -> Result<(), Difference> {
    let found = answer.err();
    let expected = expect.err();
    if found == expected {
        return Ok(());
    }
    Err(refused(question(found), question(expected)))
}

// The numbers of a channel's sound.
pub fn sound_numbers(r: Receiver, side: Side) -> [u64; 13] {
    let j = channel_of(r, side).jitter;
    [
        j.packets_received,
        j.packets_inserted,
        j.packets_missing_concealed,
        j.packets_dropped_late,
        j.packets_dropped_overflow,
        j.packets_dropped_invalid_size,
        j.resync_count,
        j.filled,
        j.max_buffered_samples() as u64,
        amount_word(buffered_samples(r, side)),
        u64::from(j.started()),
        j.next_sequence.map_or(0, u64::from),
        j.consecutive_conceals as u64,
    ]
}

// The first word of a line's rest, and what is behind it. There is no word of no letters.
fn first_word(rest: &str) -> (&str, &str) {
    rest.split_once(' ').unwrap_or((rest, ""))
}

// A number against the expected one. None: what is expected is no number.
fn agrees(
    what: &'static str,
    place: Option<usize>,
    found: u64,
    expected: Option<u64>,
) -> Result<(), Difference> {
    if expected == Some(found) {
        return Ok(());
    }
    Err(Difference {
        what,
        place,
        found,
        expected: expected.unwrap_or(0),
    })
}

// Numbers, each under its name, against those of a line. The answer is what is behind the last. (No arrays of one length: the check does
// not cover an array of references whose length is a parameter.)
pub fn numbers_agree<'a>(
    found: &[u64],
    names: &[&'static str],
    line: &'a str,
) -> Result<&'a str, Difference>
    requires { length found.now ≡ length names.now }
{
    let mut rest = line;
    for (number, name) in found.iter().zip(names) {
        let (word, behind) = first_word(rest);
        agrees(name, None, *number, word.parse().ok())?;
        rest = behind;
    }
    Ok(rest)
}

// Samples against those of a line, bit for bit. The answer is what is behind the last.
pub fn samples_agree<'a>(out: &[f32], line: &'a str) -> Result<&'a str, Difference> {
    let mut rest = line;
    for (place, sample) in out.iter().enumerate() {
        let (word, behind) = first_word(rest);
        let expected = u32::from_str_radix(word, 16).ok().map(u64::from);
        let found = u64::from(floats::to_bits(*sample));
        agrees("sample", Some(place), found, expected)?;
        rest = behind;
    }
    Ok(rest)
}

// No word is behind the last. A line with more is no call's.
pub fn ends(rest: &str) -> Result<(), Difference> {
    if rest.is_empty() {
        return Ok(());
    }
    Err(no_call())
}

// Two lists of numbers of one length, under the name `what`: the first difference.
pub fn same(found: &[u64], expected: &[u64], what: &'static str) -> Result<(), Difference> {
    let place = found.len();
    agrees(what, Some(place), place as u64, Some(expected.len() as u64))?;
    for (place, (found, expected)) in found.iter().zip(expected).enumerate() {
        agrees(what, Some(place), *found, Some(*expected))?;
    }
    Ok(())
}
