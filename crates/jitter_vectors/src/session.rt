// Runs a session on each channel of a receiver: its calls one after the other, each held against its line.
use crate::acts::{Act, Areas, Lent, Player, sound};
use crate::bench::{Bench, Failed, begun, ended_as, in_turn};
use crate::compare::{
    Difference, PLAY, SOUND, ends, no_call, numbers_agree, refused_by, same, samples_agree,
    sound_numbers,
};
use calls::{Refusal, Side, Sizes};
use receiver_state::{Answer, Receiver};
use sizes::AllowedSizes;

// A session's name, its sizes and its lines.
#[derive(Clone, Copy)]
struct Session<'a> {
    name: &'a str,
    sizes: Sizes,
    lines: &'a str,
}

pub fn sizes(packet: usize, target: usize, max: usize) -> Sizes {
    Sizes {
        packet,
        target,
        max,
        bins: 1,
        width: 1,
        height: 1,
    }
}

// The call of a line. A push has a sequence, so many samples and the first of them; a play so many samples. None: it is no
// call.
fn call_of(line: &str, side: Side) -> Option<Act> {
    let mut words = line.split(' ');
    match words.next()? {
        "push" => {
            let sequence = words.next()?.parse().ok()?;
            let count: usize = words.next()?.parse().ok()?;
            let first = words.next()?.parse().ok()?;
            let n = count.saturating_mul(2).saturating_add(16);
            Some(Act::Datagram(sound(side, sequence), first, n))
        }
        "play" => Some(Act::Play(words.next()?.parse().ok()?)),
        "reset" => Some(Act::Reset),
        _ => None,
    }
}

// What a line's call left and answered: a datagram or a reset was accepted, with the numbers after it, and a play has also
// what it answered, and the samples. No play is longer than the output.
fn line_agrees(
    found: &[u64; 13],
    a: Act,
    answer: Result<Answer, Refusal>,
    out: &[f32],
    line: &str,
) -> Result<(), Difference> {
    let Act::Play(n) = a else {
        answer.map_err(|why| refused_by(Some(why)))?;
        return ends(numbers_agree(found, &SOUND, line)?);
    };
    let played = out.get(..n).ok_or(no_call())?;
    let Ok(Answer::Played(p)) = answer else {
        return Err(refused_by(answer.err()));
    };
    let rest = numbers_agree(found, &SOUND, line)?;
    let samples = numbers_agree(&p.words(), &PLAY, rest)?;
    ends(samples_agree(played, samples)?)
}

// One line.
fn step(p: &mut Player, line: &str) -> Result<(), Difference> {
    let (call, told) = line.split_once(": ").ok_or(no_call())?;
    let side = p.side;
    let act = call_of(call, side).ok_or(no_call())?;
    let mut out = [3.0f32; 128];
    let answer = p.call(act, &mut out);
    line_agrees(&sound_numbers(p.receiver, side), act, answer, &out, told)
}

fn other(side: Side) -> Side {
    match side {
        Side::A => Side::B,
        Side::B => Side::A,
    }
}

// What a session of n calls leaves when all its lines agree: the other channel is as it was, and the calls are counted.
fn at_end(r: Receiver, side: Side, n: u64) -> Result<(), Difference> {
    same(&sound_numbers(r, other(side)), &[0u64; 13], "other")?;
    same(&[r.calls], &[n], "calls")
}

// The calls of one session. It ends at a difference, or behind its last line.
fn steps(p: &mut Player, lines: &str) -> Result<u64, Failed> {
    let mut n: u64 = 0;
    for line in lines.lines() {
        n = n.wrapping_add(1);
        ended_as(p.side, n, step(p, line))?;
    }
    ended_as(p.side, n, at_end(p.receiver, p.side, n))
}

// What a receiver of these sizes needs, exactly.
fn needed(z: Sizes) -> Lent {
    let nothing = Lent {
        floats: 0,
        words: 0,
    };
    AllowedSizes::of(z).map_or(
        nothing,
        |sizes| Lent {
            floats: sizes.float_area(),
            words: sizes.word_area(),
        },
    )
}

// A session on one channel.
fn on(side: Side, session: Session<'_>) -> Result<u64, Failed> {
    let mut areas = Areas::new();
    let lent = needed(session.sizes);
    let receiver = begun(side, areas.set_up(session.sizes, lent))?;
    let mut p = Player {
        receiver,
        side,
        areas,
        lent,
    };
    steps(&mut p, session.lines)
}

// The first line is the name, and the sizes of packet, target and max.
fn session_of(text: &str) -> Option<Session<'_>> {
    let (head, lines) = text.split_once('\n')?;
    let mut words = head.rsplitn(4, ' ');
    let max = words.next()?.parse().ok()?;
    let target = words.next()?.parse().ok()?;
    let packet = words.next()?.parse().ok()?;
    Some(Session {
        name: words.next()?,
        sizes: sizes(packet, target, max),
        lines,
    })
}

// All sessions of a text, with an empty line between each two: the calls of each on channel A and again on B.
pub fn run(b: &mut Bench, text: &str) {
    for session in text.split("\n\n") {
        match session_of(session) {
            Some(s) => b.count(s.name, in_turn(on(Side::A, s), on(Side::B, s))),
            None => b.count(session, ended_as(Side::A, 0, Err(no_call()))),
        }
    }
}
