// Numbers as text in lent bytes. Each public function writes from a place on and answers the place behind what it wrote.
// It takes any target, any place and any number. Where the target is too short, refusal 2: it answers None, and nothing is written.
// The digits are not the kit's: `itoa` writes them into 40 bytes of its own, so room and copy would stay here, and promises std's `decimal`,
// which is not the model's; `hex` writes a number's bytes, whose digits would have to be shown to be the number's; `char::from_digit` answers an
// Option of a character, to be unwrapped and cut to a byte. The loop is two lines.
#![tactic(auto)]

ghost use Rattle.std.specs.Prelude.{◌≡◌, ◌+◌, ◌<◌, [], ◌∷◌, length, nat_le};
ghost use Rattle.model.specs.Replay.{decimal, signed_decimal, hex_digit, hex_digits};
ghost use Rattle.text.specs.Digits.{digits_in, Base};
ghost use Rattle.text.specs.Promises.{Written};

// Whether so many bytes from a place on lie inside so many. (In `lines`, `tape_writer` and `tape_windows` the like test counts in numbers
// or words: one function for all would have to take these units too.)
fn has_room(len: usize, at: usize, bytes: usize) -> bool
    ensures { result ≡ nat_le (at + bytes) len }
{
    at <= len && bytes <= len - at
}

// How many decimal digits a number has.
fn digits(n: u64) -> usize
    ensures { result ≡ length (decimal n) }
{
    n.checked_ilog10().map_or(1, |power| power as usize + 1)
}

// 0 to 9, then a to f.
#[tactic(auto, unfolding(model::specs::Replay::hex_digit))]
fn digit(d: u64) -> u8
    requires { d < 16 }
    ensures { result ≡ hex_digit d }
{
    if d < 10 {
        b'0' + d as u8
    } else {
        b'a' + (d - 10) as u8
    }
}

// Writes so many digits of a number, the last one first.
#[tactic(auto, using(model::proofs::PlacedLaws::none_placed, crate::proofs::DigitLaws::digits_in_length, crate::proofs::DigitLaws::digit_placed), unfolding(model::specs::Bytes::written_into, crate::specs::Digits::digits_in))]
fn put_digits(out: &mut [u8], at: usize, count: usize, base: u64, n: u64) -> Option<usize>
    requires { Base base }
    ensures { Written (digits_in base count n) at out.old out.new result }
{
    if !has_room(out.len(), at, count) {
        return None;
    }
    let mut left = n;
    // By places: of what a loop over `iter_mut().rev()` writes, no contract says a value, so the proof doesn't close.
    for i in (0..count).rev() {
        out[at + i] = digit(left % base);
        left /= base;
    }
    Some(at + count)
}

// Writes one byte.
#[tactic(auto, using(crate::proofs::WrittenLaws::byte_placed), unfolding(model::specs::Bytes::written_into))]
pub fn put_byte(out: &mut [u8], at: usize, byte: u8) -> Option<usize>
    ensures { Written (byte ∷ []) at out.old out.new result }
{
    if !has_room(out.len(), at, 1) {
        return None;
    }
    out[at] = byte;
    Some(at + 1)
}

// Writes a number in decimal. (The target and the place are no struct here, since each caller writes at places of its own, and a
// struct would have to be lent both; where they travel together, in `lines`, they are one.)
#[tactic(auto, using(crate::proofs::DigitLaws::decimal_digits))]
pub fn put_decimal(out: &mut [u8], at: usize, n: u64) -> Option<usize>
    ensures { Written (decimal n) at out.old out.new result }
{
    put_digits(out, at, digits(n), 10, n)
}

// Writes a minus and a number in decimal.
#[tactic(auto, unfolding(model::specs::Bytes::written_into))]
fn put_negative(out: &mut [u8], at: usize, n: u64) -> Option<usize>
    ensures { Written (45 ∷ decimal n) at out.old out.new result }
{
    let count = digits(n);
    if !has_room(out.len(), at, 1 + count) {
        return None;
    }
    out[at] = b'-';
    put_digits(out, at + 1, count, 10, n)
}

// Writes a signed number in decimal, with a minus only below 0.
#[tactic(auto, unfolding(model::specs::Replay::signed_decimal))]
pub fn put_signed(out: &mut [u8], at: usize, n: i64) -> Option<usize>
    ensures { Written (signed_decimal n) at out.old out.new result }
{
    if n < 0 {
        put_negative(out, at, n.unsigned_abs())
    } else {
        put_decimal(out, at, n.unsigned_abs())
    }
}

// Writes 32 bits as eight lower-case hexadecimal digits.
#[tactic(auto, using(crate::proofs::DigitLaws::hex_digits_law))]
pub fn put_hex(out: &mut [u8], at: usize, bits: u32) -> Option<usize>
    ensures { Written (hex_digits 8 bits) at out.old out.new result }
{
    put_digits(out, at, 8, 16, bits as u64)
}
