// What was found against the words of a line.
use crate::words::word;
use num_traits::AsPrimitive;
use udp::{Display, StreamCounts};

#[derive(Clone, Copy)]
pub struct Difference {
    pub word: usize,
    pub found: u64,
    pub expected: u64,
}

// A number that is found, against a word of a line.
fn at(word: usize, found: u64, expected: u64) -> Result<(), Difference> {
    if found == expected {
        return Ok(());
    }
    Err(Difference {
        word,
        found,
        expected,
    })
}

// As many as the words.
pub(crate) fn length(found: usize, words: &[u32]) -> Result<(), Difference> {
    let expected = words.len();
    at(expected, found as u64, expected as u64)
}

// An answer. A line has the expected one as its first word.
pub(crate) fn answer(found: u32, expected: u32) -> Result<(), Difference> {
    at(0, u64::from(found), u64::from(expected))
}

// So many values from a place on, each by its word. Where there are fewer, they end in zeros, which a slice in place of the
// three could not.
pub(crate) fn each<T: Copy, F: Fn(T) -> u32>(
    found: &[T],
    word: F,
    from: usize,
    n: usize,
    words: &[u32],
) -> Result<(), Difference>
    requires { F.IsAlwaysCallable word }
{
    for (i, expected) in words.iter().enumerate() {
        let place = from.wrapping_add(i);
        let number = found.get(place).map_or(0, |x| word(*x));
        at(i, u64::from(number), u64::from(*expected))?;
    }
    length(n, words)
}

// Numbers, one for each word of a line.
pub(crate) fn numbers(found: &[u32], words: &[u32]) -> Result<(), Difference> {
    each(found, |x| x, 0, found.len(), words)
}

pub(crate) fn estimates(d: Display, words: &[u32]) -> Result<(), Difference> {
    let found = [
        floats::to_bits(d.top_estimate),
        floats::to_bits(d.floor_estimate),
        floats::to_bits(d.range_estimate),
    ];
    numbers(&found, words)
}

// The sum of so many values from a place on. Each changes all of it, and so does its place.
pub(crate) fn sum(found: &[f32], from: usize, n: usize) -> u32 {
    (0..n).fold(0u32, |total, i| {
        let x = found.get(from.wrapping_add(i));
        let bits = x.map_or(0, |x| floats::to_bits(*x));
        total.wrapping_mul(31).wrapping_add(bits)
    })
}

// The colours from a level on.
pub(crate) fn colours(words: &[u32]) -> Result<(), Difference> {
    let mut level = (word(words, 0) % 256) as u8;
    for (i, expected) in words.iter().enumerate().skip(1) {
        let found = spectrum_utils::color_map(level);
        at(i, u64::from(found), u64::from(*expected))?;
        level = level.wrapping_add(1);
    }
    Ok(())
}

// The sequence, then packets, dropped ones in two words, and late ones.
pub(crate) fn counts(c: StreamCounts, words: &[u32]) -> Result<(), Difference> {
    let found = [
        word(words, 0),
        c.packets.as_(),
        (c.dropped >> 32).as_(),
        c.dropped.as_(),
        c.late.as_(),
    ];
    numbers(&found, words)
}
