// The float helpers of the receiver, at f32. Each takes every float: a NaN, an infinity, -0 and a
// subnormal are answered as the definition that the contract names answers them.
#![tactic(auto)]

ghost use Rattle.std.specs.Prelude.{◌≡◌, ◌^◌, ◌<◌, ◌≤◌, min, false, T, pos};
ghost use Prim.Native.Nat.{compare};
ghost use Rattle.std.specs.Float.Ieee as Ieee;
ghost use Rattle.std.specs.Float.{fin};
ghost use Rattle.std.specs.Float.Ieee.{lt};
ghost use Rattle.model.specs.Floats.{f0, finite, as_unsigned, nearest, natf, round_half_away, maxf, clampf, from_bits, to_bits, sample};

// Whether x is neither a NaN nor an infinity. (By the library's test, which takes x from itself, a long row's values take half as
// long again to store.)
pub fn is_finite(x: f32) -> bool
    ensures { result ≡ finite x }
{
    let top: f32 = 1.0 / 0.0;
    x < top && -top < x
}

// b where it is above a or a is a NaN, else a: so a NaN is skipped, and of two zeros the first is
// the answer. (`f32::max` leaves it open which of them.)
#[tactic(auto, unfolding(model::specs::Floats::maxf))]
pub fn max(a: f32, b: f32) -> f32
    ensures { result ≡ maxf a b }
{
    if a < b {
        return b;
    }
    if a.is_nan() { b } else { a }
}

// x, or the end of the range that it is beyond. A NaN stays a NaN. (`f32::clamp` asks for a `low` that is at most `high`.)
#[tactic(auto, unfolding(model::specs::Floats::clampf))]
pub fn clamp(x: f32, low: f32, high: f32) -> f32
    ensures { result ≡ clampf x low high }
{
    if x < low {
        low
    } else if high < x {
        high
    } else {
        x
    }
}

// The float of a bit pattern. A NaN's pattern gives a NaN, of no particular payload.
pub fn from_bits(b: u32) -> f32
    ensures { result ≡ from_bits b }
{
    std::num::f32_from_bits_with_nan(b)
}

// The bit pattern of x. Every NaN gives 7fc00000.
pub fn to_bits(x: f32) -> u32
    ensures { result ≡ to_bits x }
{
    std::num::f32_to_bits_with_nan(x)
}

// A sample of two bytes, little-endian and signed, as a part of 32767.
pub fn sample(lo: u8, hi: u8) -> f32
    ensures { result ≡ sample lo hi }
{
    (i16::from_le_bytes([lo, hi]) as f32) / 32767.0
}

// x without its fraction, as a u8: what lies outside goes to the nearest end, and a NaN to 0.
pub fn as_u8(x: f32) -> u8
    ensures { result ≡ as_unsigned 8 x }
{
    std::num::saturating_f32_to_u8(x)
}

// x without its fraction, as a u32, in the same way.
pub fn as_u32(x: f32) -> u32
    ensures { result ≡ as_unsigned 32 x }
{
    std::num::saturating_f32_to_u32(x)
}

// x without its fraction, as a usize, in the same way.
pub fn as_usize(x: f32) -> usize
    ensures { result ≡ as_unsigned 64 x }
{
    std::num::saturating_f32_to_usize(x)
}

// The whole number nearest to x, half away from zero, with x's sign: -0.3 gives -0. From 2^23 on
// every float is whole.
pub fn round(x: f32) -> f32
    ensures { result ≡ round_half_away x }
{
    x.round()
}

// The whole number nearest to x, half up. x + x is exact, and its whole part has the half as its
// last digit.
#[tactic(auto, using(crate::proofs::HalfUp::half_up, crate::proofs::HalfUp::HalfUp))]
fn half_up(x: f32) -> u64
    requires fact_1 { T (lt f0 x) }
    requires fact_2 { T (lt x (fin false 1 (pos 23))) }
    ensures { (natf result ≡ round_half_away x) × (result ≤ 2 ^ 24) }
{
    (std::num::truncating_f32_to_u64(x + x) + 1) / 2
}

// x rounded in that way and then cast to a u8: what lies outside goes to the nearest end, and a NaN to 0. One cast of
// the float serves.
#[tactic(auto, using(crate::proofs::Narrow::whole_to_u8))]
pub fn round_to_u8(x: f32) -> u8
    ensures { result ≡ as_unsigned 8 (round_half_away x) }
{
    if x > 0.0 {
        if x < 8388608.0 {
            half_up(x).min(255) as u8
        } else {
            255
        }
    } else {
        0
    }
}

// The f32 nearest to n; where two are as near, the one whose last digit is even. By hand, here and below: the library's function of
// the same name takes 1.3 times as long (200 million of all sizes, with the making of the numbers: 2.2 s, not 1.7 s).
pub fn nearest_i64_to_f32(n: i64) -> f32
    ensures { result ≡ nearest n }
{
    if n >= 0 {
        nearest_u64_to_f32(n as u64)
    } else {
        -nearest_u64_to_f32(n.unsigned_abs())
    }
}

// The same of an n that is not negative. From 2^24 on, the 24 leading digits are kept and `dropped`
// digits are rounded off. A pattern has the exponent's field above the digits, and the leading
// digit adds one to the field, as it also does where rounding carries into a 25th digit.
pub fn nearest_u64_to_f32(n: u64) -> f32
    ensures { result ≡ natf n }
{
    let zeros = u64::leading_zeros(n);
    if zeros >= 40 {
        return n as f32;
    }
    let dropped = 40 - zeros;
    let unit = 1u64 << dropped;
    let kept = nearer(n / unit, n % unit * 2, unit);
    f32::from_bits((dropped + 149) * 0x80_0000 + (kept as u32))
}

// q, or one more: by how twice the rest compares with the unit, and at a tie the even one. (By a `match` on `cmp` the conversion takes
// 1.4 times as long.)
fn nearer(q: u64, twice: u64, unit: u64) -> u64
    requires { q < 2 ^ 24 }
    ensures { result ≡ Ieee.nearest q (compare twice unit) }
{
    if twice < unit {
        q
    } else if twice == unit {
        q + q % 2
    } else {
        q + 1
    }
}
