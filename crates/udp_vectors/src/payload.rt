// Payloads of chunks, put into a lent slice. The answer is how many bytes they have, 0 where they have no room. (No Option: the
// datagram has its header alone then, behind which stand no bytes.)
ghost use Rattle.io.specs.Counts.{IsPrefixLen};

use crate::words::word;
use numbers::put;

// The low 16 bits, big-endian, as far as there is room.
fn put_u16(p: &mut [u8], at: usize, x: u32) {
    let low = (x % 65536) as u16;
    put(p, at, &low.to_be_bytes());
}

// Row number, total and first bin, which are the words from the second on.
fn put_header(p: &mut [u8], words: &[u32]) {
    put_u16(p, 0, word(words, 1));
    put_u16(p, 2, word(words, 2));
    put_u16(p, 4, word(words, 3));
}

fn with_room(p: &[u8], n: usize) -> usize
    ensures { IsPrefixLen result p.now }
{
    if p.len() < n {
        return 0;
    }
    n
}

// The words from the fifth on, behind the header, little-endian.
fn put_values(p: &mut [u8], words: &[u32]) {
    for (at, word) in (6..p.len()).step_by(4).zip(words.iter().skip(4)) {
        put(p, at, &word.to_le_bytes());
    }
}

// A chunk whose values are written out.
pub(crate) fn chunk(p: &mut [u8], words: &[u32]) -> usize
    ensures { IsPrefixLen result p.new }
{
    let n = words.len();
    if n < 4 || n > 16000 {
        return 0;
    }
    put_header(p, words);
    put_values(p, words);
    with_room(p, 4 * n - 10)
}

// A whole number below 65536 as a float.
fn number(n: u32) -> f32 {
    (n % 65536) as u16 as f32
}

// The value of a bin in rows that are too long to be written out.
fn ruled(rule: u32, bin: u32) -> f32 {
    let b = bin % 65536;
    let scattered = number(b * 25173 + 13849);
    match rule {
        0 => scattered / 512.0 - 100.0,
        1 => -20.0 - scattered / 1024.0,
        _ => number(b) - 255.0,
    }
}

fn put_ruled(p: &mut [u8], first: u32, n: u32, rule: u32) {
    for (at, j) in (6..p.len()).step_by(4).zip(0..n) {
        let x = ruled(rule, first.wrapping_add(j));
        put(p, at, &floats::to_bits(x).to_le_bytes());
    }
}

// A chunk whose values follow a rule.
pub(crate) fn ruled_chunk(p: &mut [u8], words: &[u32]) -> usize
    ensures { IsPrefixLen result p.new }
{
    let n = word(words, 4);
    if n > 16378 {
        return 0;
    }
    put_header(p, words);
    put_ruled(p, word(words, 3), n, word(words, 5));
    with_room(p, (4 * n + 6) as usize)
}

// The bytes as they are.
pub(crate) fn bytes(p: &mut [u8], words: &[u32]) -> usize
    ensures { IsPrefixLen result p.new }
{
    let n = words.len();
    if n < 1 {
        return 0;
    }
    for (place, word) in p.iter_mut().zip(&words[1..]) {
        *place = (*word % 256) as u8;
    }
    with_room(p, n - 1)
}
