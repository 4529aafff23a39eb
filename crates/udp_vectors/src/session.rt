// A receiver in the state that a session has come to, the channel that the session is on, and both areas, which are lent
// to each call.
use crate::compare;
use crate::compare::Difference;
use crate::words::word;
use calls::{Estimates, Refusal, Settings, Side, Sizes};
use channel::Channel;
use receiver_setup::setup;
use receiver_state::sides::{channel_of, with_channel};
use receiver_state::{Answer, Receiver};

// Answers in a word. A refusal is the number of its question.
const ACCEPTED: u32 = 16;

pub const NO_ROW: u32 = 32;

const ROW: u32 = 65536;

// No session plays, and no line expects this.
const PLAYED: u32 = 0;

// Both areas are those of 65,535 bins and a picture of 256 places, and hold anything.
#[derive(Drop)]
pub struct Session {
    pub side: Side,
    pub receiver: Receiver,
    pub fs: [f32; 458751],
    pub us: [u32; 514],
    // The first difference since the session began.
    pub found: Result<(), Difference>,
}

// The sound has the smallest sizes.
fn sizes_of(words: &[u32]) -> Sizes {
    Sizes {
        packet: 1,
        target: 1,
        max: 1,
        bins: word(words, 1) as usize,
        width: word(words, 2) as usize,
        height: word(words, 3) as usize,
    }
}

fn estimates_of(words: &[u32]) -> Estimates {
    Estimates {
        top: word(words, 4),
        floor: word(words, 5),
        range: word(words, 6),
    }
}

fn settings_of(words: &[u32]) -> Settings {
    Settings {
        adaptive: word(words, 1) != 0,
        top: word(words, 2),
        range: word(words, 3),
        zoom: word(words, 4),
        smoothing: word(words, 5),
    }
}

// Before a setup: no bins, so that question 1 refuses every call.
pub(crate) fn no_receiver() -> Receiver {
    let zeros = Estimates::default();
    Receiver::new(sizes_of(&[]), zeros, zeros)
}

fn answer_word(answer: Result<Answer, Refusal>) -> u32 {
    match answer {
        Err(why) => why.number(),
        Ok(Answer::Accepted) => ACCEPTED,
        Ok(Answer::NoRow) => NO_ROW,
        Ok(Answer::Row(n)) => ROW + ((n % 65536) as u32),
        Ok(Answer::Played(_)) => PLAYED,
    }
}

impl Session {
    // The areas hold what the session before has left there.
    pub(crate) fn start(&mut self, side: Side) {
        self.side = side;
        self.receiver = no_receiver();
        self.found = Ok(());
    }

    // What a look found.
    pub(crate) fn looked(&mut self, v: Result<(), Difference>) {
        self.found = self.found.and(v);
    }

    // What a call left, and its answer against the one that is expected.
    fn called(&mut self, receiver: Receiver, answer: u32, expected: u32) {
        self.receiver = receiver;
        self.looked(compare::answer(answer, expected));
    }

    // A setup with these estimates on one channel, and zeros on the other.
    fn set_up(&mut self, z: Sizes, e: Estimates) -> Result<Receiver, Refusal> {
        let zeros = Estimates::default();
        let (a, b) = match self.side {
            Side::A => (e, zeros),
            Side::B => (zeros, e),
        };
        setup(z, a, b, &self.fs, &mut self.us)
    }

    // Question 5 refuses estimates that are not finite. A state that holds them can still be handed in, and is made of a
    // setup with zeros: nothing but the estimates is changed.
    fn with_estimates(&mut self, z: Sizes, e: Estimates) -> Receiver {
        match self.set_up(z, Estimates::default()) {
            Err(_) => no_receiver(),
            Ok(r) => with_channel(r, self.side, Channel::new(e)),
        }
    }

    // A setup.
    pub(crate) fn begin(&mut self, words: &[u32]) {
        let z = sizes_of(words);
        let e = estimates_of(words);
        let expected = word(words, 0);
        match self.set_up(z, e) {
            Err(why) => {
                let r = self.with_estimates(z, e);
                self.called(r, why.number(), expected);
            }
            Ok(r) => self.called(r, ACCEPTED, expected),
        }
    }

    // New settings. Question 5 refuses settings that are not finite. A state that holds them can still be handed in, and is
    // made of the former one: nothing but the settings is changed.
    pub(crate) fn set(&mut self, words: &[u32]) {
        let side = self.side;
        let settings = settings_of(words);
        let answered = receiver::settings::set(self.receiver, &self.fs, &self.us, side, settings);
        let mut receiver = answered.receiver;
        let answer = answered.answer;
        if let Err(Refusal::NotFinite) = answer {
            let channel = channel_of(receiver, side);
            receiver = with_channel(receiver, side, channel.set(settings));
        }
        self.called(receiver, answer_word(answer), word(words, 0));
    }

    // A datagram.
    pub(crate) fn datagram(&mut self, bytes: &[u8], expected: u32) {
        let answered = receiver_datagrams::handle_media_packet(
            self.receiver,
            &mut self.fs,
            &mut self.us,
            bytes,
        );
        self.called(answered.receiver, answer_word(answered.answer), expected);
    }
}
