// Writes tapes, reads them back, and checks damaged ones: a line for each vector, with what was found and what was expected.
#![tactic(auto)]

mod back;
mod damage;
mod report;
mod sample;

use crate::report::{Bench, bad};

// Every bit that has no name in the first word of the setup, of a datagram, a play, a reset, a set, a probe, a one-way and
// the end.
fn unknown_bits(b: &mut Bench) {
    let words = [
        (0, 3758096384, 0, 29),
        (13, 536870917, 16, 29),
        (16, 1073741826, 16, 28),
        (18, 1610612736, 0, 28),
        (20, 2147483648, 1, 28),
        (30, 2684354560, 0, 29),
        (39, 3221225472, 2, 29),
        (56, 0, 0, 29),
    ];
    for (place, word, from, to) in words {
        b.each_bit(place, word, from, to);
    }
}

// Other words, each with its place, and where the first bad word stands then.
fn each_bad_word(b: &mut Bench, words: &[(usize, u32, usize)]) {
    for &(place, word, first_bad) in words {
        b.with_word(place, word, 228, bad(first_bad));
    }
}

// A clock word with both low bits, and each kind where the setup must stand.
fn not_a_setup(b: &mut Bench) {
    let words = [
        (39, 3221225475, 39),
        (0, 0, 0),
        (0, 536870912, 0),
        (0, 1073741824, 0),
        (0, 1610612736, 0),
        (0, 2147483648, 0),
        (0, 2684354560, 0),
        (0, 3221225472, 0),
    ];
    each_bad_word(b, &words);
}

// A setup and an end among the calls.
fn out_of_place(b: &mut Bench) {
    each_bad_word(b, &[(16, 3758096384, 16), (13, 0, 14), (16, 0, 17)]);
    b.with_word(55, 0, 228, Ok(()));
}

// A call for the end, and lengths that do not fit what follows.
fn run_out(b: &mut Bench) {
    let words = [
        (56, 1610612736, 57),
        (56, 2684354560, 57),
        (54, 3221225473, 57),
        (13, 536936447, 57),
    ];
    each_bad_word(b, &words);
}

// Padding, and bytes of a datagram.
fn padding(b: &mut Bench) {
    b.with_byte(61, 1, bad(15));
    b.with_byte(62, 1, bad(15));
    b.with_byte(63, 128, bad(15));
    b.with_byte(60, 0, Ok(()));
}

// Lengths of a datagram, and words and parts of words behind the end.
fn lengths(b: &mut Bench) {
    b.with_word(13, 536870921, 228, bad(16));
    b.with_word(13, 536870918, 228, Ok(()));
    b.with_word(57, 0, 232, bad(57));
    b.with_word(57, 0, 229, bad(57));
}

fn ends(b: &mut Bench) {
    b.behind_end(84, Ok(()));
    b.behind_end(85, bad(21));
    b.behind_end(87, bad(21));
    b.behind_end(88, bad(21));
}

fn main(rt: HostRuntime) {
    let mut b = Bench::new(rt);
    back::every_field(&mut b);
    back::refusals(&mut b);
    unknown_bits(&mut b);
    not_a_setup(&mut b);
    out_of_place(&mut b);
    run_out(&mut b);
    padding(&mut b);
    lengths(&mut b);
    ends(&mut b);
    b.each_cut();
    b.sum_up();
}
