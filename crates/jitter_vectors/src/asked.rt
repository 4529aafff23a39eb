// A receiver that plays, one change to it or to what it is lent, and a call: what the call answers, and after a refusal
// that nothing else is changed.
use crate::acts::{Act, Areas, Lent, Player, sound};
use crate::bench::{Failed, begun, ended_as, in_turn};
use crate::compare::{Difference, refused_alike, same, sound_numbers};
use crate::session::sizes;
use calls::{Refusal, Side, Sizes};
use numbers::put;
use receiver_state::sides::{channel_of, with_channel};
use receiver_state::{Answer, Receiver};
use std::array;
use udp_framing::MediaHeader;

#[derive(Clone, Copy)]
pub enum Change {
    Sizes(Sizes),
    Calls(u64),
    // Of the channel's sound: the run of concealed packets, the queued samples, the waiting packets.
    Run(usize),
    Queue(usize),
    Waiting(usize),
    // The sequence of its second waiting packet.
    Second(u32),
}

// What an accepted call changes.
#[derive(Clone, Copy)]
pub enum Changes {
    Any,
    // Nothing but the number of calls and of valid headers.
    Counts,
}

// What is expected of a call, or the question that must refuse it.
pub type Expect = Result<Changes, Refusal>;

// What a receiver of 4, 8 and 16 with one bin and pictures of one pixel needs.
pub fn exact() -> Lent {
    Lent {
        floats: 63,
        words: 10,
    }
}

// No call is lent more.
fn most() -> Lent {
    Lent {
        floats: 64,
        words: 11,
    }
}

// A packet of four samples.
fn packet(side: Side, sequence: u32) -> Act {
    Act::Datagram(sound(side, sequence), 1, 24)
}

fn changed(r: Receiver, side: Side, change: Change) -> Receiver {
    let mut v = r;
    let mut channel = channel_of(r, side);
    match change {
        Change::Sizes(z) => v.sizes = z,
        Change::Calls(n) => v.calls = n,
        Change::Run(n) => channel.jitter.consecutive_conceals = n,
        Change::Queue(n) => channel.jitter.playout_len = n,
        Change::Waiting(n) => channel.jitter.pending_len = n,
        Change::Second(_) => {}
    }
    with_channel(v, side, channel)
}

// Channel B's words begin at 5: four places of sequences and a picture of one pixel are A's.
fn change_word(us: &mut [u32; 64], side: Side, change: Change) {
    let Change::Second(sequence) = change else {
        return;
    };
    match side {
        Side::A => us[1] = sequence,
        Side::B => us[6] = sequence,
    }
}

// A datagram's stream type is that for channel A; B's is two more.
fn on_side(a: Act, side: Side) -> Act {
    match (a, side) {
        (Act::Datagram(h, first, n), Side::B) => {
            let stream_type = h.stream_type % 128 + 2;
            Act::Datagram(MediaHeader { stream_type, ..h }, first, n)
        }
        _ => a,
    }
}

// The numbers of calls and headers, the counts of streams 1 and 2, and what waits and is queued on each channel.
fn head(r: Receiver) -> [u64; 12] {
    let audio = r.audio;
    let rows = r.waterfall;
    let a = channel_of(r, Side::A).jitter;
    let b = channel_of(r, Side::B).jitter;
    [
        r.calls,
        r.incoming,
        audio.packets,
        audio.dropped,
        audio.late,
        rows.packets,
        rows.dropped,
        rows.late,
        a.pending_len as u64,
        a.playout_len as u64,
        b.pending_len as u64,
        b.playout_len as u64,
    ]
}

// A word for each value, and zeros where there are fewer values.
fn words<const N: usize, T: Copy, F: Fn(T) -> u64>(values: &[T], word: F) -> [u64; N]
    requires { F.IsAlwaysCallable word }
{
    array::from_fn(|i| values.get(i).map_or(0, |x| word(*x)))
}

fn float_word(x: f32) -> u64 {
    u64::from(floats::to_bits(x))
}

// The receiver but for what it shows and the clock, and every place of both areas that a call is lent.
fn everything(p: &Player) -> [u64; 119] {
    let r = p.receiver;
    let mut all = [0u64; 119];
    put(&mut all, 0, &r.sizes.numbers());
    put(&mut all, 6, &head(r));
    put(&mut all, 18, &sound_numbers(r, Side::A));
    put(&mut all, 31, &sound_numbers(r, Side::B));
    put(&mut all, 44, &words::<64, f32, _>(&p.areas.fs, float_word));
    put(&mut all, 108, &words::<11, u32, _>(&p.areas.us, u64::from));
    all
}

// What a call must leave. Of what an accepted call changes its number is compared here; the sessions have the rest.
fn left_by(before: [u64; 119], after: [u64; 119], expect: Expect) -> [u64; 119] {
    let mut left = before;
    match expect {
        Err(_) => {}
        Ok(Changes::Counts) => {
            left[6] = before[6].wrapping_add(1);
            left[7] = before[7].wrapping_add(1);
        }
        Ok(Changes::Any) => {
            left = after;
            left[6] = before[6].wrapping_add(1);
        }
    }
    left
}

// What a call left and answered, against what is expected of it.
fn judged(
    before: [u64; 119],
    after: [u64; 119],
    answer: Result<Answer, Refusal>,
    expect: Expect,
) -> Result<(), Difference> {
    refused_alike(answer, expect)?;
    let left = left_by(before, after, expect);
    same(&after, &left, "left")
}

// A call of a channel that plays: 10 and 11 are queued, 12 and 13 wait. Its numbers before the change are those of the
// fourth call of the session `duplicate of a full buffer`.
fn call_playing(
    p: &mut Player,
    change: Change,
    lent: Lent,
    a: Act,
    expect: Expect,
) -> Result<(), Difference> {
    let side = p.side;
    let mut out = [3.0f32; 65536];
    for sequence in 10..14 {
        let _ = p.call(packet(side, sequence), &mut out);
    }
    let playing = [4, 4, 0, 0, 0, 0, 0, 0, 16, 16, 1, 12, 0];
    same(&sound_numbers(p.receiver, side), &playing, "left")?;
    change_word(&mut p.areas.us, side, change);
    p.receiver = changed(p.receiver, side, change);
    p.lent = lent;
    let before = everything(p);
    let answer = p.call(a, &mut out);
    judged(before, everything(p), answer, expect)
}

// One call of a receiver of 4, 8 and 16.
pub fn called(
    side: Side,
    change: Change,
    lent: Lent,
    a: Act,
    expect: Expect,
) -> Result<u64, Failed> {
    let mut areas = Areas::new();
    let receiver = begun(side, areas.set_up(sizes(4, 8, 16), most()))?;
    let mut p = Player {
        receiver,
        side,
        areas,
        lent: exact(),
    };
    let act = on_side(a, side);
    ended_as(side, 1, call_playing(&mut p, change, lent, act, expect))
}

// A datagram, a play and a reset, each of a channel that plays.
pub fn all_called(side: Side, change: Change, lent: Lent, expect: Expect) -> Result<u64, Failed> {
    let first = called(side, change, lent, packet(Side::A, 14), expect);
    let second = called(side, change, lent, Act::Play(2), expect);
    let third = called(side, change, lent, Act::Reset, expect);
    in_turn(first, in_turn(second, third))
}

// A setup that is refused leaves the words; an accepted one writes the two pictures, of one pixel each.
fn words_left(expect: Expect) -> [u64; 11] {
    let mut left = [7u64; 11];
    if expect.is_ok() {
        left[4] = 0;
        left[9] = 0;
    }
    left
}

// What a setup answered, and the words that it left.
fn set_up_as(
    answer: Result<Receiver, Refusal>,
    us: &[u32],
    expect: Expect,
) -> Result<(), Difference> {
    refused_alike(answer, expect)?;
    same(
        &words::<11, u32, _>(us, u64::from),
        &words_left(expect),
        "left",
    )
}

pub fn set_up(z: Sizes, lent: Lent, expect: Expect) -> Result<u64, Failed> {
    let mut areas = Areas::new();
    let answer = areas.set_up(z, lent);
    ended_as(Side::A, 1, set_up_as(answer, &areas.us, expect))
}
