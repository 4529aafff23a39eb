// Rounds of the calls of a tape.
use receiver_state::Receiver;
use replaying::acting::act;
use tape::reader::call_at;
use tape::{Call, FIRST_CALL};
use udp_framing::StreamType;
use udp_framing::big_endian::BigEndian;

// Where a round stands: the receiver, the next call's place, and the audio datagrams so far.
#[derive(Clone, Copy)]
struct Standing {
    receiver: Receiver,
    place: usize,
    sequence: u32,
}

// What is lent to the calls. (No const parameters: the areas of the other programs have a text besides, or no samples.)
#[derive(Drop)]
pub struct Areas {
    pub fs: [f32; 600000],
    pub us: [u32; 900000],
    pub samples: [f32; 65535],
}

// The bit patterns, added up.
pub fn sum_of(samples: &[f32]) -> u64 {
    samples.iter().fold(0u64, |sum, x| {
        sum.wrapping_add(u64::from(floats::to_bits(*x)))
    })
}

// Numbers a datagram of 18 bytes or more: an audio packet's sequence, or a row's number. The answer is the next sequence.
fn number(datagram: &mut [u8], sequence: u32, row: u16) -> u32 {
    if datagram.len() < 18 {
        return sequence;
    }
    match StreamType::try_from(datagram[3]) {
        Ok(StreamType::Audio) => {
            sequence.write_to(datagram, 4);
            sequence.wrapping_add(1)
        }
        Ok(StreamType::Waterfall) => {
            row.write_to(datagram, 16);
            sequence
        }
        _ => sequence,
    }
}

// Makes the next call, numbered. None where no call comes after it.
#[inline(always)]
fn turn(t: Standing, tape: &mut [u8], row: u16, areas: &mut Areas) -> Option<Standing> {
    let placed = call_at(tape, t.place).ok()??;
    let sequence = match placed.call {
        Call::Datagram { at, len } => number(&mut tape[at..at + len], t.sequence, row),
        _ => t.sequence,
    };
    let found = Ok(Some(placed));
    let (fs, us, samples) = (&mut areas.fs, &mut areas.us, &mut areas.samples);
    let v = act(t.receiver, fs, us, tape, found, samples).ok()?;
    Some(Standing {
        receiver: v.receiver,
        place: placed.next,
        sequence,
    })
}

// All calls of the tape once. There are no more of them than bytes. (No `while`: that each call takes words is a law and two files
// of proof for its measure.)
fn round(begun: Standing, tape: &mut [u8], row: u16, areas: &mut Areas) -> Standing {
    let mut t = begun;
    for _ in 0..tape.len() {
        let Some(next) = turn(t, tape, row, areas) else {
            return t;
        };
        t = next;
    }
    t
}

// So many rounds, each from the first call on.
pub fn all(receiver: Receiver, tape: &mut [u8], count: u32, areas: &mut Areas) -> Receiver {
    let mut t = Standing {
        receiver,
        place: FIRST_CALL,
        sequence: 0,
    };
    for i in 0..count {
        let first = Standing {
            place: FIRST_CALL,
            ..t
        };
        t = round(first, tape, (i % 65536) as u16, areas);
    }
    t.receiver
}
