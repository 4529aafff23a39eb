// Writes numbers at the edges as text, and compares with bytes that were written down by hand.
// Each number is written up to the end of 24 dots, so that it just fits, and then one place later, where it is one byte too long.
#![tactic(auto)]

use text::{put_byte, put_decimal, put_hex, put_signed};

const SIZE: usize = 24;

// Whether a number that is put at a place ends where the target ends and is as expected, and has no room one place later,
// where the target stays all dots.
fn just_fits<T: Copy, F: Fn(&mut [u8], usize, T) -> Option<usize>>(
    put: &F,
    number: T,
    at: usize,
    expected: &[u8; SIZE],
) -> bool
    requires { F.IsAlwaysCallable put.now }
{
    if at >= SIZE {
        return false;
    }
    let mut out = [b'.'; SIZE];
    let first = put(&mut out, at, number);
    let mut short = [b'.'; SIZE];
    let second = put(&mut short, at + 1, number);
    first == Some(SIZE) && out == *expected && refused(second, &short)
}

// Whether each number does, at its place and with what is expected there.
fn all_fit<T: Copy, F: Fn(&mut [u8], usize, T) -> Option<usize>>(
    put: F,
    vectors: &[(T, usize, &[u8; SIZE])],
) -> bool
    requires { F.IsAlwaysCallable put }
{
    vectors.iter().all(|&(number, at, expected)| just_fits(&put, number, at, expected))
}

// Whether the answer is that there is no room, and the target is all dots.
fn refused(answer: Option<usize>, out: &[u8]) -> bool {
    answer.is_none() && out == [b'.'; SIZE].as_slice()
}

fn decimals() -> bool {
    all_fit(
        put_decimal,
        &[
            (0, 23, b".......................0"),
            (9, 23, b".......................9"),
            (10, 22, b"......................10"),
            (99, 22, b"......................99"),
            (100, 21, b".....................100"),
            (4294967295, 14, b"..............4294967295"),
            (9999999999999999999, 5, b".....9999999999999999999"),
            (10000000000000000000, 4, b"....10000000000000000000"),
            (18446744073709551615, 4, b"....18446744073709551615"),
        ],
    )
}

fn signed_ones() -> bool {
    all_fit(
        put_signed,
        &[
            (0, 23, b".......................0"),
            (7, 23, b".......................7"),
            (-1, 22, b"......................-1"),
            (-10, 21, b".....................-10"),
            (9223372036854775807, 5, b".....9223372036854775807"),
            (-9223372036854775807, 4, b"....-9223372036854775807"),
            (-9223372036854775808, 4, b"....-9223372036854775808"),
        ],
    )
}

fn patterns() -> bool {
    all_fit(
        put_hex,
        &[
            (0, 16, b"................00000000"),
            (0xffff_ffff, 16, b"................ffffffff"),
            (0x8000_0000, 16, b"................80000000"),
            (0x7fc0_0000, 16, b"................7fc00000"),
            (0x0123_4567, 16, b"................01234567"),
            (0x89ab_cdef, 16, b"................89abcdef"),
        ],
    )
}

fn bytes() -> bool {
    all_fit(
        put_byte,
        &[
            (b' ', 23, b"....................... "),
            (b'P', 23, b".......................P"),
        ],
    )
}

// A place outside the target, whose sum with a length would not be a number of 64 bits.
fn far_places() -> bool {
    let far = usize::MAX;
    let mut out = [b'.'; SIZE];
    let first = put_byte(&mut out, far, b'P');
    let second = put_decimal(&mut out, far, 0);
    let third = put_signed(&mut out, far, -1);
    let fourth = put_hex(&mut out, far, 0);
    refused(first, &out) && refused(second, &out) && refused(third, &out) && refused(fourth, &out)
}

// A line of words, each part at the place behind the last.
fn put_words(out: &mut [u8]) -> Option<usize> {
    let at = put_byte(out, 0, b'P')?;
    let at = put_byte(out, at, b' ')?;
    let at = put_decimal(out, at, 160)?;
    let at = put_byte(out, at, b' ')?;
    let at = put_signed(out, at, -5)?;
    let at = put_byte(out, at, b' ')?;
    let at = put_hex(out, at, 0x3f80_0000)?;
    put_byte(out, at, b'\n')
}

// What lies behind a line stays.
fn line() -> bool {
    let mut out = [b'.'; SIZE];
    put_words(&mut out) == Some(18) && out == *b"P 160 -5 3f800000\n......"
}

// A line that cannot be written is left out.
fn report(rt: &impl Print, group: &str, ok: bool) {
    let _ = println!(rt; "{group}: {}", if ok { "ok" } else { "DIFFERS" });
}

fn main(rt: HostRuntime) {
    report(&rt, "decimal", decimals());
    report(&rt, "signed", signed_ones());
    report(&rt, "hexadecimal", patterns());
    report(&rt, "byte", bytes());
    report(&rt, "far places", far_places());
    report(&rt, "line", line());
}
