// Half the difference of two sums of 64-bit words, and the signed number that 64 bits are.
ghost use Rattle.std.specs.Prelude.{◌≡◌, pos, ◌-ℤ◌, int_div};
ghost use Rattle.model.specs.Clock.{bits64, signed64};
ghost use Rattle.udp_framing.specs.Views.{sum_of};

// The low 64 bits of (a - b) / 2, rounded toward zero, for two sums of 64 bits, each with what it carries. The bit above
// the low word of a - b is made of the carries and the borrow. Halving the bits rounds down, so an odd number below zero
// gets one more.
pub(crate) fn half_difference(a: (u64, bool), b: (u64, bool)) -> u64
    ensures { result ≡ bits64 (int_div (pos (sum_of a) -ℤ pos (sum_of b)) (pos 2)) }
{
    let (low, borrow) = a.0.borrowing_sub(b.0, false);
    let carry = a.1 as u64;
    let taken = b.1 as u64 + borrow as u64;
    let above = (carry + 2 - taken) % 2;
    let half = above * 0x8000_0000_0000_0000 + low / 2;
    if carry < taken {
        return half.wrapping_add(low % 2);
    }
    half
}

// The signed number that the bits are.
#[tactic(auto, using(model::proofs::CastLaws::signed_of_bits))]
pub fn as_signed(bits: u64) -> i64
    ensures { result ≡ signed64 bits }
{
    bits.cast_signed()
}
