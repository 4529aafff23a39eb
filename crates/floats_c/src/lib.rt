// The static library of `floats` for programs in other languages. Each function has the contract of the function that it
// calls, and its name with a prefix.
#![tactic(auto)]

ghost use Rattle.std.specs.Prelude.{◌≡◌};
ghost use Rattle.model.specs.Floats.{finite, as_unsigned, nearest, round_half_away, maxf, clampf, from_bits, to_bits, sample};

#[unsafe(no_mangle)]
pub extern "C" fn floats_is_finite(x: f32) -> bool
    ensures { result ≡ finite x }
{
    floats::is_finite(x)
}

#[unsafe(no_mangle)]
pub extern "C" fn floats_max(a: f32, b: f32) -> f32
    ensures { result ≡ maxf a b }
{
    floats::max(a, b)
}

#[unsafe(no_mangle)]
pub extern "C" fn floats_clamp(x: f32, low: f32, high: f32) -> f32
    ensures { result ≡ clampf x low high }
{
    floats::clamp(x, low, high)
}

#[unsafe(no_mangle)]
pub extern "C" fn floats_from_bits(b: u32) -> f32
    ensures { result ≡ from_bits b }
{
    floats::from_bits(b)
}

#[unsafe(no_mangle)]
pub extern "C" fn floats_to_bits(x: f32) -> u32
    ensures { result ≡ to_bits x }
{
    floats::to_bits(x)
}

#[unsafe(no_mangle)]
pub extern "C" fn floats_sample(lo: u8, hi: u8) -> f32
    ensures { result ≡ sample lo hi }
{
    floats::sample(lo, hi)
}

#[unsafe(no_mangle)]
pub extern "C" fn floats_as_u8(x: f32) -> u8
    ensures { result ≡ as_unsigned 8 x }
{
    floats::as_u8(x)
}

#[unsafe(no_mangle)]
pub extern "C" fn floats_as_u32(x: f32) -> u32
    ensures { result ≡ as_unsigned 32 x }
{
    floats::as_u32(x)
}

#[unsafe(no_mangle)]
pub extern "C" fn floats_as_usize(x: f32) -> usize
    ensures { result ≡ as_unsigned 64 x }
{
    floats::as_usize(x)
}

#[unsafe(no_mangle)]
pub extern "C" fn floats_round(x: f32) -> f32
    ensures { result ≡ round_half_away x }
{
    floats::round(x)
}

#[unsafe(no_mangle)]
pub extern "C" fn floats_nearest_i64_to_f32(n: i64) -> f32
    ensures { result ≡ nearest n }
{
    floats::nearest_i64_to_f32(n)
}

#[unsafe(no_mangle)]
pub extern "C" fn floats_round_to_u8(x: f32) -> u8
    ensures { result ≡ as_unsigned 8 (round_half_away x) }
{
    floats::round_to_u8(x)
}
