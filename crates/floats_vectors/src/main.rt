// Holds the crate `floats` against vectors from outside: the expected values are those of Rust
// (rustc 1.95, x86-64) for the expression that a group names. A float stands by its bit pattern,
// and a vector's line says what was found, and whether it is what was expected.
#![tactic(auto)]

use std::fmt::Display;
use tally::Tally;

// What was seen so far. A line that cannot be written is left out, and changes no count.
#[derive(Clone, Copy)]
struct Bench {
    rt: HostRuntime,
    tally: Tally,
}

impl Bench {
    // A vector's line, with what stands before the colon.
    fn vector<W: Display + Drop, N: Into<u64>>(&mut self, what: W, found: N, expected: N) {
        let found: u64 = found.into();
        let expected: u64 = expected.into();
        let equal = found == expected;
        self.tally.count(equal);
        let _ = if equal {
            println!(self.rt; "{what}: {found:08x} equal")
        } else {
            println!(self.rt; "{what}: {found:08x} DIFFERS, expected {expected:08x}")
        };
    }

    // Vectors with names: what each function's argument is, and what it gives.
    fn named<A: Copy, N: Into<u64> + Copy, F: Fn(A) -> N>(
        &mut self,
        what: &str,
        function: F,
        vectors: &[(&str, A, N)],
    )
        requires { F.IsAlwaysCallable function }
    {
        for &(name, argument, expected) in vectors {
            self.vector(format_args!("{what} {name}"), function(argument), expected);
        }
    }

    // Vectors whose name is the float's pattern.
    fn by_pattern<N: Into<u64> + Copy, F: Fn(f32) -> N>(
        &mut self,
        what: &str,
        function: F,
        vectors: &[(u32, N)],
    )
        requires { F.IsAlwaysCallable function }
    {
        for &(pattern, expected) in vectors {
            self.vector(
                format_args!("{what} {pattern:08x}"),
                function(floats::from_bits(pattern)),
                expected,
            );
        }
    }

    fn sum_up(self) {
        let _ = println!(self.rt; "{}", self.tally);
    }
}

// A whole number as the nearest float: `n as f32`.
fn ties_at_2_to_24(b: &mut Bench) {
    b.named(
        "nearest",
        |n| floats::to_bits(floats::nearest_i64_to_f32(n)),
        &[
            ("0", 0, 0x0000_0000),
            ("1", 1, 0x3f80_0000),
            ("-1", -1, 0xbf80_0000),
            ("2^24 - 1", 16777215, 0x4b7f_ffff),
            ("2^24", 16777216, 0x4b80_0000),
            ("2^24 + 1, a tie", 16777217, 0x4b80_0000),
            ("2^24 + 2", 16777218, 0x4b80_0001),
            ("2^24 + 3, a tie", 16777219, 0x4b80_0002),
            ("-2^24 - 1, a tie", -16777217, 0xcb80_0000),
            ("2^25 - 1, carried", 33554431, 0x4c00_0000),
            ("2^25 + 2, a tie", 33554434, 0x4c00_0000),
            ("2^25 + 3", 33554435, 0x4c00_0001),
            ("2^25 + 6, a tie", 33554438, 0x4c00_0002),
        ],
    );
}

// The same to the ends of i64. Of 2^60 + 2^36 + 1 an f64 on the way would lose the last digit and
// make a tie.
fn whole_numbers_to_the_ends(b: &mut Bench) {
    b.named(
        "nearest",
        |n| floats::to_bits(floats::nearest_i64_to_f32(n)),
        &[
            ("2^31 - 1", 2147483647, 0x4f00_0000),
            ("2^32 - 1", 4294967295, 0x4f80_0000),
            ("2^53 + 1", 9007199254740993, 0x5a00_0000),
            ("2^60 + 2^36, a tie", 1152921573326323712, 0x5d80_0000),
            ("2^60 + 2^36 + 1", 1152921573326323713, 0x5d80_0001),
            ("2^60 + 2^36 - 1", 1152921573326323711, 0x5d80_0000),
            ("2^63 - 2^39", 9223371487098961920, 0x5eff_ffff),
            ("2^63 - 2^38 - 1", 9223371761976868863, 0x5eff_ffff),
            ("2^63 - 2^38, a tie", 9223371761976868864, 0x5f00_0000),
            ("2^63 - 1", 9223372036854775807, 0x5f00_0000),
            ("-2^63", -9223372036854775808, 0xdf00_0000),
            ("-2^63 + 1", -9223372036854775807, 0xdf00_0000),
        ],
    );
}

// A pattern read and written again: `f32::from_bits(b).to_bits()`, with 7fc00000 for every NaN.
fn patterns(b: &mut Bench) {
    b.by_pattern(
        "pattern",
        floats::to_bits,
        &[
            (0x0000_0000, 0x0000_0000),
            (0x8000_0000, 0x8000_0000),
            (0x0000_0001, 0x0000_0001),
            (0x807f_ffff, 0x807f_ffff),
            (0x0080_0000, 0x0080_0000),
            (0x3f80_0000, 0x3f80_0000),
            (0x7f7f_ffff, 0x7f7f_ffff),
            (0x7f80_0000, 0x7f80_0000),
            (0xff80_0000, 0xff80_0000),
            (0x7f80_0001, 0x7fc0_0000),
            (0x7fc0_0000, 0x7fc0_0000),
            (0x7fff_ffff, 0x7fc0_0000),
            (0xff80_0001, 0x7fc0_0000),
            (0xffff_ffff, 0x7fc0_0000),
        ],
    );
}

// To whole, half away from zero: `x.round()`.
fn halves(b: &mut Bench) {
    b.named(
        "round",
        |x| floats::to_bits(floats::round(floats::from_bits(x))),
        &[
            ("0.5", 0x3f00_0000, 0x3f80_0000),
            ("-0.5", 0xbf00_0000, 0xbf80_0000),
            ("1.5", 0x3fc0_0000, 0x4000_0000),
            ("-1.5", 0xbfc0_0000, 0xc000_0000),
            ("2.5", 0x4020_0000, 0x4040_0000),
            ("-2.5", 0xc020_0000, 0xc040_0000),
            ("0.49999997", 0x3eff_ffff, 0x0000_0000),
            ("-0.49999997", 0xbeff_ffff, 0x8000_0000),
            ("0.50000006", 0x3f00_0001, 0x3f80_0000),
            ("0.3", 0x3e99_999a, 0x0000_0000),
            ("-0.3", 0xbe99_999a, 0x8000_0000),
            ("0", 0x0000_0000, 0x0000_0000),
            ("-0", 0x8000_0000, 0x8000_0000),
        ],
    );
}

// The same where the floats become whole, and at the ends.
fn rounding_at_the_edges(b: &mut Bench) {
    b.named(
        "round",
        |x| floats::to_bits(floats::round(floats::from_bits(x))),
        &[
            ("4194303.75", 0x4a7f_ffff, 0x4a80_0000),
            ("4194304.5", 0x4a80_0001, 0x4a80_0002),
            ("8388607", 0x4aff_fffe, 0x4aff_fffe),
            ("8388607.5", 0x4aff_ffff, 0x4b00_0000),
            ("-8388607.5", 0xcaff_ffff, 0xcb00_0000),
            ("8388608", 0x4b00_0000, 0x4b00_0000),
            ("-8388608", 0xcb00_0000, 0xcb00_0000),
            ("8388609", 0x4b00_0001, 0x4b00_0001),
            ("16777216", 0x4b80_0000, 0x4b80_0000),
            ("the least above 0", 0x0000_0001, 0x0000_0000),
            ("the least below 0", 0x8000_0001, 0x8000_0000),
            ("the largest", 0x7f7f_ffff, 0x7f7f_ffff),
            ("infinity", 0x7f80_0000, 0x7f80_0000),
            ("-infinity", 0xff80_0000, 0xff80_0000),
            ("a NaN", 0x7fc0_0000, 0x7fc0_0000),
        ],
    );
}

// A cast that goes to the nearest end: `x as u8`.
fn casts_to_u8(b: &mut Bench) {
    b.named(
        "u8",
        |x| floats::as_u8(floats::from_bits(x)),
        &[
            ("255", 0x437f_0000, 255),
            ("255.99998", 0x437f_ffff, 255),
            ("256", 0x4380_0000, 255),
            ("1e10", 0x5015_02f9, 255),
            ("0.99999994", 0x3f7f_ffff, 0),
            ("-0", 0x8000_0000, 0),
            ("-0.9", 0xbf66_6666, 0),
            ("-1", 0xbf80_0000, 0),
            ("infinity", 0x7f80_0000, 255),
            ("-infinity", 0xff80_0000, 0),
            ("a NaN", 0x7fc0_0000, 0),
        ],
    );
}

// Rounded before the cast: `x.round() as u8`.
fn rounded_to_u8_below_256(b: &mut Bench) {
    b.named(
        "rounded to u8",
        |x| floats::round_to_u8(floats::from_bits(x)),
        &[
            ("0.49999997", 0x3eff_ffff, 0),
            ("0.5", 0x3f00_0000, 1),
            ("-0.5", 0xbf00_0000, 0),
            ("1.5", 0x3fc0_0000, 2),
            ("2.5", 0x4020_0000, 3),
            ("126.49999", 0x42fc_ffff, 126),
            ("127.5", 0x42ff_0000, 128),
            ("254.5", 0x437e_8000, 255),
            ("254.49998", 0x437e_7fff, 254),
        ],
    );
}

fn rounded_to_u8_at_the_ends(b: &mut Bench) {
    b.named(
        "rounded to u8",
        |x| floats::round_to_u8(floats::from_bits(x)),
        &[
            ("255.5", 0x437f_8000, 255),
            ("300", 0x4396_0000, 255),
            ("8388607.5", 0x4aff_ffff, 255),
            ("2^23", 0x4b00_0000, 255),
            ("infinity", 0x7f80_0000, 255),
            ("-infinity", 0xff80_0000, 0),
            ("a NaN", 0x7fc0_0000, 0),
            ("-1", 0xbf80_0000, 0),
            ("-0", 0x8000_0000, 0),
        ],
    );
}

// The same to u32: `x as u32`.
fn casts_to_u32(b: &mut Bench) {
    b.named(
        "u32",
        |x| floats::as_u32(floats::from_bits(x)),
        &[
            ("2^24", 0x4b80_0000, 0x100_0000),
            ("2^32 - 256", 0x4f7f_ffff, 0xffff_ff00),
            ("2^32", 0x4f80_0000, 0xffff_ffff),
            ("-0.5", 0xbf00_0000, 0x0),
            ("-1", 0xbf80_0000, 0x0),
            ("infinity", 0x7f80_0000, 0xffff_ffff),
            ("-infinity", 0xff80_0000, 0x0),
            ("a NaN", 0x7fc0_0000, 0x0),
        ],
    );
}

// The same to usize, of 64 bits: `x as usize`.
fn casts_to_usize(b: &mut Bench) {
    b.named(
        "usize",
        |x| floats::as_usize(floats::from_bits(x)) as u64,
        &[
            ("2^32", 0x4f80_0000, 0x1_0000_0000),
            ("2^64 - 2^40", 0x5f7f_ffff, 0xffff_ff00_0000_0000),
            ("2^64", 0x5f80_0000, 0xffff_ffff_ffff_ffff),
            ("-0.5", 0xbf00_0000, 0x0),
            ("-1", 0xbf80_0000, 0x0),
            ("infinity", 0x7f80_0000, 0xffff_ffff_ffff_ffff),
            ("-infinity", 0xff80_0000, 0x0),
            ("a NaN", 0x7fc0_0000, 0x0),
        ],
    );
}

// A little-endian i16 as a part of 32767: `i16::from_le_bytes([lo, hi]) as f32 / 32767.0`.
fn samples(b: &mut Bench) {
    b.named(
        "sample",
        |(lo, hi)| floats::to_bits(floats::sample(lo, hi)),
        &[
            ("0x8000", (0x00, 0x80), 0xbf80_0100),
            ("0x8001", (0x01, 0x80), 0xbf80_0000),
            ("0x7fff", (0xff, 0x7f), 0x3f80_0000),
            ("0x7ffe", (0xfe, 0x7f), 0x3f7f_fe00),
            ("0", (0x00, 0x00), 0x0000_0000),
            ("1", (0x01, 0x00), 0x3800_0100),
            ("-1", (0xff, 0xff), 0xb800_0100),
            ("0x0100", (0x00, 0x01), 0x3c00_0100),
            ("0xff00", (0x00, 0xff), 0xbc00_0100),
        ],
    );
}

// The larger one: `a.max(b)`, which skips a NaN.
fn larger_ones(b: &mut Bench) {
    b.named(
        "max",
        |(a, b)| floats::to_bits(floats::max(floats::from_bits(a), floats::from_bits(b))),
        &[
            ("1, 2", (0x3f80_0000, 0x4000_0000), 0x4000_0000),
            ("2, 1", (0x4000_0000, 0x3f80_0000), 0x4000_0000),
            ("NaN, 1", (0x7fc0_0000, 0x3f80_0000), 0x3f80_0000),
            ("1, NaN", (0x3f80_0000, 0x7fc0_0000), 0x3f80_0000),
            ("NaN, -inf", (0x7fc0_0000, 0xff80_0000), 0xff80_0000),
            ("NaN, NaN", (0x7fc0_0000, 0x7fc0_0000), 0x7fc0_0000),
            ("-1, -0", (0xbf80_0000, 0x8000_0000), 0x8000_0000),
            ("inf, largest", (0x7f80_0000, 0x7f7f_ffff), 0x7f80_0000),
        ],
    );
}

// The nearest in a range: `x.clamp(0.0, 1.0)`, which passes a NaN.
fn clamped_ones(b: &mut Bench) {
    b.named(
        "clamp to 0..1",
        |x| floats::to_bits(floats::clamp(floats::from_bits(x), 0.0, 1.0)),
        &[
            ("0.5", 0x3f00_0000, 0x3f00_0000),
            ("-1", 0xbf80_0000, 0x0000_0000),
            ("2", 0x4000_0000, 0x3f80_0000),
            ("0", 0x0000_0000, 0x0000_0000),
            ("-0", 0x8000_0000, 0x8000_0000),
            ("1", 0x3f80_0000, 0x3f80_0000),
            ("infinity", 0x7f80_0000, 0x3f80_0000),
            ("-infinity", 0xff80_0000, 0x0000_0000),
            ("a NaN", 0x7fc0_0000, 0x7fc0_0000),
        ],
    );
}

// Neither a NaN nor an infinity: `x.is_finite()`.
fn finite_ones(b: &mut Bench) {
    b.by_pattern(
        "finite",
        floats::is_finite,
        &[
            (0x0000_0000, true),
            (0x8000_0000, true),
            (0x0000_0001, true),
            (0x7f7f_ffff, true),
            (0xff7f_ffff, true),
            (0x7f80_0000, false),
            (0xff80_0000, false),
            (0x7fc0_0000, false),
            (0x7f80_0001, false),
            (0xffff_ffff, false),
        ],
    );
}

fn main(rt: HostRuntime) {
    let mut b = Bench {
        rt,
        tally: Tally::default(),
    };
    ties_at_2_to_24(&mut b);
    whole_numbers_to_the_ends(&mut b);
    patterns(&mut b);
    halves(&mut b);
    rounding_at_the_edges(&mut b);
    casts_to_u8(&mut b);
    rounded_to_u8_below_256(&mut b);
    rounded_to_u8_at_the_ends(&mut b);
    casts_to_u32(&mut b);
    casts_to_usize(&mut b);
    samples(&mut b);
    larger_ones(&mut b);
    clamped_ones(&mut b);
    finite_ones(&mut b);
    b.sum_up();
}
