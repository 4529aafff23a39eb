// Bytes from an input, as standard input.
#![tactic(auto)]

ghost use Rattle.std.specs.Prelude.{◌≤◌, length, MatchResult};
ghost use Rattle.input.specs.Promises.{ReadUntil, ReadBefore};

use std::io;

// A read failed, when so many bytes were there.
#[derive(Clone, Copy, PartialEq, Eq, Debug)]
pub struct ReadFailed {
    pub bytes: usize,
}

// Reads until the input ends or the bytes are full, and says how many there are.
#[tactic(auto, using(crate::proofs::ReadOn::read_on))]
pub fn read_all<R: io::Read>(reader: &mut R, bytes: &mut [u8]) -> Result<usize, ReadFailed>
    ensures bound { MatchResult result (λ n. n ≤ length bytes.old) (λ e. e.bytes ≤ length bytes.old) }
    ensures bytes { MatchResult result (ReadUntil (R.remaining reader.old) (R.remaining reader.new) bytes.new) (λ e. ReadBefore (R.remaining reader.old) (R.remaining reader.new) bytes.new e.bytes) }
{
    let mut at = 0;
    // No `for`: what is counted are the bytes that reads bring.
    while at < bytes.len() {
        let n = reader
            .read(&mut bytes[at..])
            .map_err(|_| ReadFailed { bytes: at })?;
        if n == 0 {
            return Ok(at);
        }
        at += n;
    }
    Ok(at)
}
