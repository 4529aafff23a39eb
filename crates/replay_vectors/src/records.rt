// The tapes and their outputs, read one after the other.
use crate::compare::{Areas, prints};
use input::read_all;
use std::io::Stdin;
use tally::Tally;
use thiserror::Error;
use udp_framing::big_endian::BigEndian;

// No list has more tapes.
const MOST: usize = 1000000;

// Why a list was not read to its end.
#[derive(Debug, Drop, Error)]
pub enum ListError {
    // The list has more tapes than any.
    #[error("the list is too long")]
    TooLong,
    // A part of a record, or one that is longer than any of the list.
    #[error("the input ends in a part of a record")]
    Part,
}

// What was seen so far. A line that cannot be written is left out, and changes no count.
#[derive(Clone, Copy)]
pub struct Bench {
    pub rt: HostRuntime,
    pub tally: Tally,
}

impl Bench {
    // One tape more.
    fn count(&mut self, same: bool) {
        self.tally.count(same);
        if !same {
            let _ = println!(self.rt; "differs: tape {}", self.tally.seen);
        }
    }

    // What was found, and whether the list was read to its end.
    pub fn sum_up(self, read: Result<(), ListError>) {
        let Tally { seen, different } = self.tally;
        let _ = println!(self.rt; "{seen} tapes replayed, {different} differ");
        if let Err(e) = read {
            let _ = println!(self.rt; "{e}");
        }
    }
}

// How many bytes of the input there were for the bytes. A read that fails ends the input.
fn read(stdin: &mut Stdin, bytes: &mut [u8]) -> usize {
    read_all(stdin, bytes).unwrap_or_else(|failed| failed.bytes)
}

// So many bytes of the input, which come to the front of the bytes.
fn read_front<'a>(stdin: &mut Stdin, bytes: &'a mut [u8], n: usize) -> Result<&'a [u8], ListError> {
    let front = bytes.get_mut(..n).ok_or(ListError::Part)?;
    if read(stdin, front) < n {
        return Err(ListError::Part);
    }
    Ok(front)
}

// Whether the next tape of the input prints its output. None at the input's end. (What is read stands apart from the areas: parts
// of it are lent beside them.)
fn replay_one(
    stdin: &mut Stdin,
    tape: &mut [u8],
    expected: &mut [u8],
    areas: &mut Areas,
) -> Result<Option<bool>, ListError> {
    let mut head = [0u8; 8];
    match read(stdin, &mut head) {
        0 => return Ok(None),
        1..=7 => return Err(ListError::Part),
        _ => {}
    }
    let tape = read_front(stdin, tape, u32::read_from(&head, 0) as usize)?;
    let expected = read_front(stdin, expected, u32::read_from(&head, 4) as usize)?;
    Ok(Some(prints(tape, expected, areas)))
}

// The whole list.
pub fn replay_all(
    b: &mut Bench,
    tape: &mut [u8],
    expected: &mut [u8],
    areas: &mut Areas,
) -> Result<(), ListError> {
    let mut stdin = b.rt.stdin();
    for _ in 0..MOST {
        let Some(same) = replay_one(&mut stdin, tape, expected, areas)? else {
            return Ok(());
        };
        b.count(same);
    }
    Err(ListError::TooLong)
}
