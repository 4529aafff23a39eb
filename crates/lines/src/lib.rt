// Lines of replay's output, as pieces of text at the front of lent bytes.
#![tactic(auto)]

ghost use Rattle.std.specs.Prelude.{List, ℕ, [], ◌<◌, ◌∷◌, map, ◌≡◌, ◌+◌, ◌*◌, ◌≤◌, length, max, nat_le};
ghost use Rattle.model.specs.Replay.{decimal, signed_decimal, hex_bits, line, refused_line};
ghost use Rattle.audio_metrics.specs.Views.{timing_of, delay_of};
ghost use Rattle.calls.specs.Views.{model_side};
ghost use Rattle.text.proofs.FittedLaws.{Fitted};
ghost use Rattle.text.specs.Promises.{Written};
ghost use Rattle.lines.specs.Lines.{spaced, head, word_or_dash, clock_text, Piece, ValuesWritten};

use audio_metrics::ClockTiming;
use calls::Side;

// What stands in a line behind a space.
trait Word: Copy {
    // The most bytes that it takes.
    ghost most: { ℕ };

    ghost letters: { Self → List ℕ };

    // Writes it from a place on; the answer is the place behind it.
    fn put(self, out: &mut [u8], at: usize) -> Option<usize>
        ensures written { Written (letters self) at out.old out.new result }
        ensures few { length (letters self) ≤ most };
}

impl Word for u64 {
    ghost most = { 20 };

    ghost letters = { decimal };

    #[tactic(auto, using(crate::proofs::WordLaws::digits_few))]
    fn put(self, out: &mut [u8], at: usize) -> Option<usize> {
        text::put_decimal(out, at, self)
    }
}

impl Word for i64 {
    ghost most = { 20 };

    ghost letters = { signed_decimal };

    #[tactic(auto, using(crate::proofs::WordLaws::signed_few))]
    fn put(self, out: &mut [u8], at: usize) -> Option<usize> {
        text::put_signed(out, at, self)
    }
}

// A float stands there by its bits.
impl Word for f32 {
    ghost most = { 8 };

    ghost letters = { hex_bits };

    #[tactic(auto, using(crate::proofs::WordLaws::bits_length), unfolding(model::specs::Replay::hex_bits))]
    fn put(self, out: &mut [u8], at: usize) -> Option<usize> {
        text::put_hex(out, at, floats::to_bits(self))
    }
}

// For a word that is absent stands a dash.
impl<W: Word> Word for Option<W> {
    ghost most = { max 1 W.most };

    ghost letters = { word_or_dash W.letters };

    fn put(self, out: &mut [u8], at: usize) -> Option<usize> {
        match self {
            Some(word) => word.put(out, at),
            None => text::put_byte(out, at, b'-'),
        }
    }
}

// Lent bytes, and the place behind what is written.
#[derive(Drop)]
struct Line<'a> {
    out: &'a mut [u8],
    at: usize,
}

impl<'a> Line<'a> {
    fn byte(&mut self, b: u8)
        requires { self.old.at < length self.old.out.now }
        ensures lent { (self.new.out.ghost_name ≡ self.old.out.ghost_name) × (length self.new.out.now ≡ length self.old.out.now) }
        ensures fitted { Fitted (b ∷ []) self.old.at self.old.out.now self.new.out.now self.new.at }
    {
        self.out[self.at] = b;
        self.at += 1;
    }

    // A space and a word.
    fn word<W: Word>(&mut self, word: W)
        requires { self.old.at + (1 + W.most) ≤ length self.old.out.now }
        ensures lent { (self.new.out.ghost_name ≡ self.old.out.ghost_name) × (length self.new.out.now ≡ length self.old.out.now) }
        ensures fitted { Fitted (32 ∷ W.letters word) self.old.at self.old.out.now self.new.out.now self.new.at }
        ensures few { self.new.at ≤ self.old.at + (1 + W.most) }
    {
        self.byte(b' ');
        self.at = word.put(self.out, self.at).unwrap();
    }

    // Words, each after a space.
    fn words<W: Word>(&mut self, words: &[W])
        requires { self.old.at + (1 + W.most) * length words.now ≤ length self.old.out.now }
        ensures lent { (self.new.out.ghost_name ≡ self.old.out.ghost_name) × (length self.new.out.now ≡ length self.old.out.now) }
        ensures fitted { Fitted (spaced (map W.letters words.now)) self.old.at self.old.out.now self.new.out.now self.new.at }
    {
        for word in words {
            self.word(*word);
        }
    }
}

// Whether so many bytes, and the most that so many numbers take, are at most so many. (The tests of room in `text` and `tape_writer` count
// in bytes and in words: one function for all would have to take the units too.)
fn has_room(len: usize, bytes: usize, numbers: usize) -> bool
    ensures { result ≡ nat_le (bytes + 21 * numbers) len }
{
    bytes <= len && numbers <= (len - bytes) / 21
}

// A letter and numbers, to the line's end.
pub fn put_line(out: &mut [u8], letter: u8, numbers: &[u64]) -> Option<usize>
    ensures { Piece (2 + 21 * length numbers.now) (line letter (map decimal numbers.now)) out.old out.new result }
{
    if !has_room(out.len(), 2, numbers.len()) {
        return None;
    }
    let mut line = Line { out, at: 0 };
    line.byte(letter);
    line.words(numbers);
    line.byte(b'\n');
    Some(line.at)
}

// The line of a refusal of any number.
#[tactic(auto, unfolding(model::specs::Replay::refused_line))]
pub fn put_refusal(out: &mut [u8], number: u32) -> Option<usize>
    ensures { Piece 23 (refused_line number) out.old out.new result }
{
    put_line(out, b'X', &[number as u64])
}

// The bits of as many values as the bytes have room for, each after a space and in nine bytes; the answer is how many.
pub fn put_values(out: &mut [u8], values: &[f32]) -> usize
    ensures { ValuesWritten values.now out.old out.new result }
{
    let fitting = &values[..values.len().min(out.len() / 9)];
    Line { out, at: 0 }.words(fitting);
    fitting.len()
}

// A letter, a channel and numbers: how a line of a play or of a row begins.
pub fn put_head(out: &mut [u8], letter: u8, side: Side, numbers: &[u64]) -> Option<usize>
    ensures { Piece (3 + 21 * length numbers.now) (head letter (model_side side) numbers.now) out.old out.new result }
{
    if !has_room(out.len(), 3, numbers.len()) {
        return None;
    }
    let mut head = Line { out, at: 0 };
    head.byte(letter);
    head.byte(b' ');
    head.byte(side.letter());
    head.words(numbers);
    Some(head.at)
}

// The clock's line: offset, round trip and one-way delay in nanoseconds, or a dash.
pub fn put_clock(out: &mut [u8], timing: Option<ClockTiming>, one_way: Option<i64>) -> Option<usize>
    ensures { Piece 65 (clock_text (timing_of timing) (delay_of one_way)) out.old out.new result }
{
    if out.len() < 65 {
        return None;
    }
    let mut clock = Line { out, at: 0 };
    clock.byte(b'C');
    clock.word(timing.map(|t| t.offset_ns));
    clock.word(timing.map(|t| t.rtt_ns));
    clock.word(one_way);
    clock.byte(b'\n');
    Some(clock.at)
}
