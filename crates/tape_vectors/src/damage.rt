// Damaged tapes, each with the place that is expected.
use crate::report::{Bench, Verdict, bad};
use crate::sample::{every_call, small};
use tape::reader;
use udp_framing::big_endian::BigEndian;

impl Bench {
    fn set_word(&mut self, place: usize, word: u32) {
        if place < 64 {
            word.write_to(&mut self.tape, 4 * place);
        }
    }

    // The verdict on the first n bytes.
    fn verdict(&self, n: usize) -> Verdict {
        self.tape.get(..n).map_or(Ok(()), reader::check)
    }

    // The tape of every call with another word at a place, and so many bytes of it.
    pub fn with_word(&mut self, place: usize, word: u32, n: usize, expected: Verdict) {
        let _ = every_call(&mut self.tape);
        self.set_word(57, 0);
        self.set_word(place, word);
        let found = self.verdict(n);
        self.compared(
            format_args!("word {word} at {place} of {n} bytes"),
            found,
            expected,
        );
    }

    // The tape of every call with another byte.
    pub fn with_byte(&mut self, at: usize, byte: u8, expected: Verdict) {
        let _ = every_call(&mut self.tape);
        if let Some(b) = self.tape.get_mut(at) {
            *b = byte;
        }
        let found = self.verdict(228);
        self.compared(format_args!("byte {byte} at byte {at}"), found, expected);
    }

    // A word with each bit of `from` up to `to` set, none of which has a name there: the word is bad.
    pub fn each_bit(&mut self, place: usize, word: u32, from: u32, to: u32) {
        for bit in from..to {
            let with_bit = word.wrapping_add(1u32.wrapping_shl(bit));
            self.with_word(place, with_bit, 228, bad(place));
        }
    }

    // The small tape cut at every byte: bad behind the last whole word.
    pub fn each_cut(&mut self) {
        for n in 0..84 {
            let _ = small(&mut self.tape);
            let found = self.verdict(n);
            self.compared(
                format_args!("small tape cut to {n} bytes"),
                found,
                bad(n / 4),
            );
        }
    }

    // The small tape, and bytes behind its end.
    pub fn behind_end(&mut self, n: usize, expected: Verdict) {
        let _ = small(&mut self.tape);
        self.set_word(21, 0);
        self.set_word(22, 0);
        let found = self.verdict(n);
        self.compared(format_args!("small tape of {n} bytes"), found, expected);
    }
}
