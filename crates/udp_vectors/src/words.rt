// The words of a line: hexadecimal numbers, each behind a space.
ghost use Rattle.std.specs.Prelude.{◌≤◌, ◌<◌, IfSome};

// A line's letter, and its words.
#[derive(Clone, Copy)]
pub(crate) struct Line<'a> {
    pub letter: u8,
    pub words: &'a [u32],
}

// The value of a digit, which is never a capital letter.
fn digit(b: u8) -> Option<u32>
    ensures { IfSome result (λ n. n < 16) }
{
    if b.is_ascii_uppercase() {
        return None;
    }
    char::from(b).to_digit(16)
}

fn ends_a_word(b: &u8) -> bool {
    digit(*b).is_none()
}

// The number of the digits, of which the last eight count.
fn number(digits: &[u8]) -> u32 {
    let values = digits.iter().filter_map(|b| digit(*b));
    values.fold(0u32, |number, value| (number << 4) | value)
}

// Puts the words behind a line's letter into `words`. The answer is how many they are.
pub(crate) fn words_of(line: &[u8], words: &mut [u32; 512]) -> usize
    ensures { result ≤ 512 }
{
    let text = line.get(2..).unwrap_or(&[]);
    for (word, digits) in words.iter_mut().zip(text.split_inclusive(ends_a_word)) {
        *word = number(digits);
    }
    text.split_inclusive(ends_a_word).count().min(512)
}

// A word of a line, 0 where the line is shorter.
pub(crate) fn word(words: &[u32], i: usize) -> u32 {
    words.get(i).copied().unwrap_or(0)
}
