// The calls that are made: a datagram, a play or a reset, on so many places of the areas.
use calls::{Estimates, Refusal, Side, Sizes};
use receiver_setup::setup;
use receiver_state::{Answer, Answered, Receiver};
use udp_framing::big_endian::BigEndian;
use udp_framing::{MAGIC, MediaHeader, StreamType};

// A call. A datagram has samples that count up from the number, and so many bytes; a play so many samples.
#[derive(Clone, Copy)]
pub enum Act {
    Datagram(MediaHeader, u64, usize),
    Play(usize),
    Reset,
}

// How many places of each area are lent to a call.
#[derive(Clone, Copy)]
pub struct Lent {
    pub floats: usize,
    pub words: usize,
}

// More places than any receiver here needs.
#[derive(Clone, Copy)]
pub struct Areas {
    pub fs: [f32; 1024],
    pub us: [u32; 64],
}

// A receiver on its areas, and the channel that is called.
#[derive(Clone, Copy)]
pub struct Player {
    pub receiver: Receiver,
    pub side: Side,
    pub areas: Areas,
    pub lent: Lent,
}

// A channel's sound, in version 1.
pub fn sound(side: Side, sequence: u32) -> MediaHeader {
    let stream_type = match side {
        Side::A => StreamType::Audio,
        Side::B => StreamType::AudioVfoB,
    };
    MediaHeader {
        magic: MAGIC,
        version: 1,
        stream_type: u8::from(stream_type),
        sequence,
        timestamp: 0,
    }
}

fn write_header(bytes: &mut [u8; 272], h: MediaHeader) {
    h.magic.write_to(bytes, 0);
    h.version.write_to(bytes, 2);
    h.stream_type.write_to(bytes, 3);
    h.sequence.write_to(bytes, 4);
    h.timestamp.write_to(bytes, 8);
}

// The samples first, first + 1 and so on, in 16 bits, two bytes to each.
fn count_up(bytes: &mut [u8; 272], first: u64) {
    for (i, two) in bytes[16..].chunks_exact_mut(2).enumerate() {
        let sample = (first.wrapping_add(i as u64) % 65536) as u16;
        two.copy_from_slice(&sample.to_le_bytes());
    }
}

// This header, and samples that count up.
fn datagram(h: MediaHeader, first: u64) -> [u8; 272] {
    let mut bytes = [9u8; 272];
    write_header(&mut bytes, h);
    count_up(&mut bytes, first);
    bytes
}

impl Areas {
    // Whatever the free places hold.
    pub fn new() -> Areas {
        Areas {
            fs: [2.0; 1024],
            us: [7; 64],
        }
    }

    // Setup on so many places. No setup is refused by BadWord: it is what is longer than there is.
    pub fn set_up(&mut self, z: Sizes, lent: Lent) -> Result<Receiver, Refusal> {
        let fs = self.fs.get(..lent.floats).ok_or(Refusal::BadWord)?;
        let us = self.us.get_mut(..lent.words).ok_or(Refusal::BadWord)?;
        setup(z, Estimates::default(), Estimates::default(), fs, us)
    }
}

impl Player {
    // None: there is no room for the call.
    fn answered(&mut self, a: Act, out: &mut [f32]) -> Option<Answered> {
        let r = self.receiver;
        let side = self.side;
        let fs = self.areas.fs.get_mut(..self.lent.floats)?;
        let us = self.areas.us.get_mut(..self.lent.words)?;
        match a {
            Act::Datagram(h, first, n) => {
                let bytes = datagram(h, first);
                let part = bytes.get(..n)?;
                Some(receiver_datagrams::handle_media_packet(r, fs, us, part))
            }
            Act::Play(n) => {
                let part = out.get_mut(..n)?;
                Some(receiver::sound::play(r, fs, us, side, part))
            }
            Act::Reset => Some(receiver::settings::reset(r, fs, us, side)),
        }
    }

    // The call on what is lent. The output is written by a play alone. No call is refused by BadWord: it is what has no room.
    pub fn call(&mut self, a: Act, out: &mut [f32]) -> Result<Answer, Refusal> {
        let v = self.answered(a, out).ok_or(Refusal::BadWord)?;
        self.receiver = v.receiver;
        v.answer
    }
}
