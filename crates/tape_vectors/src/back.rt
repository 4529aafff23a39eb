// What was written, read back field by field.
use crate::report::Bench;
use crate::sample::{ONE_WAY, TIMES, depth_counts, every_call, every_call_setup, settings, small};
use calls::Side;
use tape::{BadWord, Call, Found, Placed, reader};
use tape_writer::PutError;

// A call's label, its place and what must be found there.
type Vector = (&'static str, usize, Found);

// The call, and the next place after it.
fn call(call: Call, next: usize) -> Found {
    Ok(Some(Placed { call, next }))
}

fn said(b: &mut Bench, label: &str, equal: bool) {
    b.counted(format_args!("{label}: read back"), equal);
}

// Whatever must be found, each at its place.
fn each(t: &[u8], b: &mut Bench, vectors: &[Vector]) {
    for &(label, place, expected) in vectors {
        said(b, label, reader::call_at(t, place) == expected);
    }
}

fn setup(t: &[u8], b: &mut Bench) {
    said(b, "setup", reader::setup_of(t) == Ok(every_call_setup()));
}

// The datagram, with the first and the last of its bytes.
fn datagram(t: &[u8], b: &mut Bench) {
    let expected = call(Call::Datagram { at: 56, len: 5 }, 16);
    let equal = reader::call_at(t, 13) == expected
        && t.get(56) == Some(&1)
        && t.get(60) == Some(&5);
    said(b, "datagram", equal);
}

fn play(side: Side, samples: u32, next: usize) -> Found {
    call(Call::Play { side, samples }, next)
}

fn set(side: Side, adaptive: bool, next: usize) -> Found {
    let settings = settings(adaptive);
    call(Call::Set { side, settings }, next)
}

fn channel_calls(t: &[u8], b: &mut Bench) {
    each(
        t,
        b,
        &[
            ("play A", 16, play(Side::A, 2, 17)),
            ("play B", 17, play(Side::B, 65535, 18)),
            ("reset A", 18, call(Call::Reset { side: Side::A }, 19)),
            ("reset B", 19, call(Call::Reset { side: Side::B }, 20)),
            ("set A", 20, set(Side::A, false, 25)),
            ("set B", 25, set(Side::B, true, 30)),
        ],
    );
}

fn clock_calls(t: &[u8], b: &mut Bench) {
    let depth = Call::Depth {
        samples: 4294967295,
        counts: depth_counts(),
    };
    each(
        t,
        b,
        &[
            ("probe", 30, call(Call::Probe(TIMES), 39)),
            ("one-way", 39, call(Call::OneWay(ONE_WAY), 44)),
            ("depth", 44, call(depth, 54)),
            (
                "transmit depth",
                54,
                call(Call::TransmitDepth { samples: 7 }, 56),
            ),
            ("end", 56, Ok(None)),
            ("past the end", 57, Err(BadWord { place: 57 })),
            ("largest place", usize::MAX, Err(BadWord { place: 57 })),
        ],
    );
}

// Every call of the large tape, by its place.
fn fields(b: &mut Bench) {
    let tape = b.tape;
    let Some(whole) = tape.get(..228) else {
        return;
    };
    setup(whole, b);
    datagram(whole, b);
    channel_calls(whole, b);
    clock_calls(whole, b);
}

// The two tapes as they were written.
pub fn every_field(b: &mut Bench) {
    let large = every_call(&mut b.tape).unwrap_or(0);
    b.numbers("words of the large tape", large as u64, 57);
    fields(b);
    let less = small(&mut b.tape).unwrap_or(0);
    b.numbers("words of the small tape", less as u64, 21);
}

fn refused_at(p: Result<usize, PutError>) -> u64 {
    match p {
        Ok(_) => 0,
        Err(PutError::TooLarge { place }) => place as u64,
        Err(PutError::NoRoom) => 2,
    }
}

// A number that does not fit its field: 11, with the place.
fn too_large(b: &mut Bench) {
    let play = refused_at(tape_writer::put_play(&mut b.tape, 16, Side::A, 65536));
    b.numbers("play of 65536 samples at 16", play, 16);
    let depth = refused_at(tape_writer::put_transmit_depth(&mut b.tape, 54, 4294967296));
    b.numbers("transmit depth of 4294967296 at 54", depth, 54);
}

// A target that is too short: 2.
fn no_room(b: &mut Bench) {
    let far = refused_at(tape_writer::put_end(&mut b.tape, 18446744073709551615));
    b.numbers("end at the largest place", far, 2);
    let behind = refused_at(tape_writer::put_end(&mut b.tape, 64));
    b.numbers("end behind the target", behind, 2);
    let last = tape_writer::put_end(&mut b.tape, 63).unwrap_or(0) as u64;
    b.numbers("end in the target's last word", last, 64);
}

// What the writer refuses.
pub fn refusals(b: &mut Bench) {
    too_large(b);
    no_room(b);
}
