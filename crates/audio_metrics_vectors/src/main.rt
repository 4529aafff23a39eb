// Holds the crate `audio_metrics` against vectors from outside. The probe sessions of the document and its ranges; all
// other expected values are those of rigflow's audio_metrics.rs (rustc 1.95, x86-64) for the same calls.
// A vector's line says what was found, and whether it is what was expected.
#![tactic(auto)]

use audio_metrics::{AudioMetrics, depth_in_range, probe_in_range};
use audio_metrics_words::{float_word, from_words, reading_word, recorded, to_words};
use calls::{DepthCounts, OneWayTimes};
use std::fmt::Display;
use tally::Tally;

// A state in its words, whose answers are held against the vectors, and what was seen of them so far. A line that cannot be
// written is left out, and changes no count.
#[derive(Clone, Copy)]
struct Session {
    rt: HostRuntime,
    words: [u64; 14],
    tally: Tally,
}

impl Session {
    // A new state.
    fn begin(&mut self) {
        self.words = to_words(AudioMetrics::new());
    }

    // What was found under a name, and whether it is what was expected.
    fn compared<D: Display + Drop, E: Display + Drop>(
        &mut self,
        name: &str,
        equal: bool,
        found: D,
        expected: E,
    ) {
        let _ = if equal {
            println!(self.rt; "  {name} {found} equal")
        } else {
            println!(self.rt; "  {name} {found} DIFFERS, expected {expected}")
        };
        self.tally.count(equal);
    }

    // The signed number that a word is.
    fn number(&mut self, name: &str, word: u64, expected: i64) {
        let found = word.cast_signed();
        self.compared(name, found == expected, found, expected);
    }

    // Nine digits: 1 where a reading may be absent and is there, then its pattern.
    fn reading(&mut self, name: &str, found: u64, expected: u64) {
        self.compared(
            name,
            found == expected,
            format_args!("{found:09x}"),
            format_args!("{expected:09x}"),
        );
    }

    // A call's line: whether it was accepted, and whether it should have been.
    fn called(&mut self, what: &str, of: &str, found: bool, expected: bool) {
        let answer = if found { "accepted" } else { "refused" };
        let verdict = if found == expected {
            "equal"
        } else {
            "DIFFERS"
        };
        let _ = println!(self.rt; "{what} {of}: {answer}, {verdict}");
        self.tally.count(found == expected);
    }

    fn asked_probe(&mut self, of: &str, offset: i64, rtt: i64, expected: bool) {
        let allowed = probe_in_range(offset, rtt);
        let found = recorded(&mut self.words, allowed, |m| m.record_probe(offset, rtt));
        self.called("probe", of, found, expected);
    }

    fn probe(&mut self, of: &str, offset: i64, rtt: i64) {
        self.asked_probe(of, offset, rtt, true);
    }

    fn one_way(&mut self, of: &str, receive: u64, send: u64) {
        let times = OneWayTimes { receive, send };
        let found = recorded(&mut self.words, true, |m| m.record_audio_one_way(times));
        self.called("one way", of, found, true);
    }

    #[tactic(auto, unfolding(model::specs::Questions::depth_allowed))]
    fn asked_depth(&mut self, of: &str, samples: usize, counts: DepthCounts, expected: bool) {
        let allowed = depth_in_range(samples);
        let found = recorded(
            &mut self.words,
            allowed,
            |m| m.publish_jitter(samples, counts),
        );
        self.called("depth", of, found, expected);
    }

    fn depth(&mut self, of: &str, samples: usize) {
        self.asked_depth(of, samples, counts(1, 2, 3, 4), true);
    }

    #[tactic(auto, unfolding(model::specs::Questions::depth_allowed))]
    fn transmit(&mut self, of: &str, samples: usize, expected: bool) {
        let allowed = depth_in_range(samples);
        let found = recorded(&mut self.words, allowed, |m| m.note_tx_ring(samples));
        self.called("transmit", of, found, expected);
    }

    fn could_be_held(&mut self, of: &str, expected: bool) {
        let found = from_words(&self.words).could_be_held();
        self.called("words", of, found, expected);
    }

    fn known(&mut self, name: &str, expected: i64) {
        self.number(name, self.words[0], expected);
    }

    fn offset(&mut self, expected: i64) {
        self.number("offset", self.words[1], expected);
    }

    fn timing(&mut self, offset: i64, rtt: i64, least: i64) {
        self.offset(offset);
        self.number("round trip", self.words[2], rtt);
        self.number("least", self.words[3], least);
    }

    fn no_delay(&mut self) {
        self.number("one way known", self.words[4], 0);
    }

    fn delay(&mut self, expected: i64) {
        self.number("one way known", self.words[4], 1);
        self.number("one way", self.words[5], expected);
    }

    // Times of receiving and sending, one after the other, and the delay behind each.
    fn delays(&mut self, times: &[(&str, u64, u64, i64)]) {
        for &(of, recv, send, expected) in times {
            self.one_way(of, recv, send);
            self.delay(expected);
        }
    }

    fn depth_readings(&mut self, average: u64, peak: u64) {
        let m = from_words(&self.words);
        self.reading("average", float_word(m.jitter_ms()), average);
        self.reading("peak", float_word(m.jitter_peak_ms()), peak);
    }

    fn peak(&mut self, expected: u64) {
        let found = float_word(from_words(&self.words).tx_ring_peak_ms());
        self.reading("peak", found, expected);
    }

    fn sum_up(self) {
        let _ = println!(self.rt; "{}", self.tally);
    }
}

fn counts(conceals: u64, late: u64, overflow: u64, resyncs: u64) -> DepthCounts {
    DepthCounts {
        conceals,
        late,
        overflow,
        resyncs,
    }
}

// The document's session.
fn probes_of_the_document(s: &mut Session) {
    s.begin();
    s.known("new: known", 0);
    s.probe("100, 64", 100, 64);
    s.timing(100, 64, 64);
    s.probe("90, 96", 90, 96);
    s.timing(98, 96, 65);
    s.probe("0, 200", 0, 200);
    s.timing(98, 200, 66);
}

// The gate after the least 65 is at 97.
fn probes_at_the_gate(s: &mut Session) {
    s.begin();
    s.probe("100, 64", 100, 64);
    s.probe("90, 97", 90, 97);
    s.timing(98, 97, 65);
    s.begin();
    s.probe("100, 64", 100, 64);
    s.probe("90, 98", 90, 98);
    s.timing(100, 98, 65);
    s.begin();
    s.probe("100, 64", 100, 64);
    s.probe("0, 200", 0, 200);
    s.timing(100, 200, 65);
}

// A round trip of 0 or less.
fn probes_that_are_ignored(s: &mut Session) {
    s.begin();
    s.probe("50, 0", 50, 0);
    s.known("known", 0);
    s.probe("100, 64", 100, 64);
    s.probe("50, 0", 50, 0);
    s.timing(100, 64, 64);
    s.probe("50, -1", 50, -1);
    s.timing(100, 64, 64);
    s.probe("50, -2^63", 50, -9223372036854775808);
    s.timing(100, 64, 64);
}

// A fourth of the way, toward zero.
fn fourth_steps(s: &mut Session) {
    s.begin();
    s.probe("100, 64", 100, 64);
    s.probe("97, 64", 97, 64);
    s.offset(100);
    s.probe("96, 64", 96, 64);
    s.offset(99);
    s.probe("103, 64", 103, 64);
    s.offset(100);
    s.begin();
    s.probe("-100, 64", -100, 64);
    s.probe("-97, 64", -97, 64);
    s.offset(-100);
    s.probe("-96, 64", -96, 64);
    s.offset(-99);
    s.probe("-103, 64", -103, 64);
    s.offset(-100);
}

// Question 9 of a probe, at its ends and one beyond each.
fn probes_at_the_bound(s: &mut Session) {
    let most = 4611686018427387903;
    s.begin();
    s.asked_probe("2^62, 64", 4611686018427387904, 64, false);
    s.asked_probe("-2^62, 64", -4611686018427387904, 64, false);
    s.asked_probe("0, 2^62", 0, 4611686018427387904, false);
    s.known("known", 0);
    s.probe(
        "2^62 - 1, 2^62 - 1",
        4611686018427387903,
        4611686018427387903,
    );
    s.timing(most, most, most);
    s.probe(
        "-2^62 + 1, 2^62 - 1",
        -4611686018427387903,
        4611686018427387903,
    );
    s.timing(2305843009213693952, most, most);
    s.probe("-2^62 + 1, 1", -4611686018427387903, 1);
    s.timing(576460752303423489, 1, 1);
}

// Words that no receiver holds.
fn words_that_are_refused(s: &mut Session) {
    s.begin();
    s.could_be_held("new", true);
    s.words[4] = 1;
    s.could_be_held("a delay without an offset", false);
    s.transmit("480", 480, false);
    s.number("peak", s.words[13], 0);
    s.words[4] = 0;
    s.words[0] = 1;
    s.could_be_held("a round trip of 0", false);
    s.words[2] = 4611686018427387903;
    s.words[3] = 1;
    s.could_be_held("a round trip of 2^62 - 1", true);
    s.words[3] = 4611686018427387904;
    s.could_be_held("a least of 2^62", false);
}

// The ends of the range, one beyond each, and before the first offset.
fn delays_at_the_ends(s: &mut Session) {
    s.begin();
    s.one_way("7, 3 before an offset", 7, 3);
    s.no_delay();
    s.probe("0, 64", 0, 64);
    s.one_way("0, 1000000001", 0, 1000000001);
    s.no_delay();
    s.one_way("5000000001, 0", 5000000001, 0);
    s.no_delay();
    s.delays(&[
        ("0, 1000000000", 0, 1000000000, -1000000000),
        ("5000000000, 0", 5000000000, 0, -250000000),
        ("5000000001, 0", 5000000001, 0, -250000000),
        ("0, 1000000001", 0, 1000000001, -250000000),
    ]);
}

// An eighth of the way, toward zero.
fn eighth_steps(s: &mut Session) {
    s.begin();
    s.probe("0, 64", 0, 64);
    s.delays(&[
        ("100, 0", 100, 0, 100),
        ("107, 0", 107, 0, 100),
        ("93, 0", 93, 0, 100),
        ("108, 0", 108, 0, 101),
        ("92, 0", 92, 0, 100),
        ("0, 100", 0, 100, 75),
        ("0, 0", 0, 0, 66),
    ]);
}

// Times at the wrap of 64 bits.
fn delays_that_wrap(s: &mut Session) {
    s.begin();
    s.probe("-1000, 64", -1000, 64);
    s.delays(&[
        ("5, 2^64 - 1", 5, 0xffff_ffff_ffff_ffff, -994),
        ("1000, 0", 1000, 0, -870),
        ("2^64 - 1, 0", 0xffff_ffff_ffff_ffff, 0, -886),
        ("0, 2^64 - 1", 0, 0xffff_ffff_ffff_ffff, -900),
    ]);
}

// The first is taken whole, then an average and a peak that decays.
fn depths(s: &mut Session) {
    s.begin();
    s.depth_readings(0, 0);
    s.depth("480", 480);
    s.depth_readings(0x4120_0000, 0x4120_0000);
    s.depth("0", 0);
    s.depth_readings(0x411e_6666, 0x411f_d70a);
    s.depth("16777216", 16777216);
    s.depth_readings(0x455b_10de, 0x48aa_aaab);
    s.asked_depth("16777217", 16777217, counts(5, 6, 7, 8), false);
    s.depth_readings(0x455b_10de, 0x48aa_aaab);
    let m = from_words(&s.words);
    s.number("conceals", m.conceals(), 1);
    s.number("late", m.late(), 2);
    s.number("overflow", m.overflow(), 3);
    s.number("resyncs", m.resyncs(), 4);
    s.depth("1", 1);
    s.depth_readings(0x4558_e010, 0x48aa_7efa);
}

fn transmit_depths(s: &mut Session) {
    s.begin();
    s.transmit("0", 0, true);
    s.peak(0);
    s.transmit("480", 480, true);
    s.peak(0x4120_0000);
    s.transmit("0", 0, true);
    s.peak(0x411e_6666);
    s.transmit("16777216", 16777216, true);
    s.peak(0x48aa_aaab);
    s.transmit("16777217", 16777217, false);
    s.peak(0x48aa_aaab);
    s.transmit("48000", 48000, true);
    s.peak(0x48a8_f5c3);
}

// Each reading in ms, absent and then there.
fn readings_in_ms(s: &mut Session) {
    s.begin();
    let m = from_words(&s.words);
    s.reading("one way", reading_word(m.rx_one_way_ms()), 0);
    s.reading("round trip", reading_word(m.rtt_ms()), 0);
    s.reading("offset", reading_word(m.clock_offset_ms()), 0);
    s.probe("-2500000, 1234567", -2500000, 1234567);
    s.one_way("12345678, 0", 12345678, 0);
    let m = from_words(&s.words);
    s.reading("one way", reading_word(m.rx_one_way_ms()), 0x1_411d_87e6);
    s.reading("round trip", reading_word(m.rtt_ms()), 0x1_3f9e_064b);
    s.reading("offset", reading_word(m.clock_offset_ms()), 0x1_c020_0000);
}

fn main(rt: HostRuntime) {
    let mut s = Session {
        rt,
        words: [0; 14],
        tally: Tally::default(),
    };
    probes_of_the_document(&mut s);
    probes_at_the_gate(&mut s);
    probes_that_are_ignored(&mut s);
    fourth_steps(&mut s);
    probes_at_the_bound(&mut s);
    words_that_are_refused(&mut s);
    delays_at_the_ends(&mut s);
    eighth_steps(&mut s);
    delays_that_wrap(&mut s);
    depths(&mut s);
    transmit_depths(&mut s);
    readings_in_ms(&mut s);
    s.sum_up();
}
