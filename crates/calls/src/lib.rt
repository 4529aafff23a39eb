// What a setup or a call carries, by value: the channel it is for, its sizes, settings, estimates and counts. And why
// an operation is refused.
#![tactic(auto)]

ghost use Rattle.std.specs.Prelude.{◌≡◌, ◌∷◌, [], Some};
ghost use Rattle.calls.specs.Refusals.{refusal_number};
ghost use Rattle.calls.specs.Sides.{side_named, side_number};
ghost use Rattle.calls.specs.Views.{model_side, size_numbers, play_words};
ghost use Rattle.model.specs.Replay.{side_letter};

use std::fmt;

// The two channels.
#[derive(Clone, Copy, PartialEq, Eq, Debug)]
pub enum Side {
    A = 0,
    B = 1,
}

impl Side {
    // The channel that a program in another language names: 0 is channel A and any other number B.
    pub fn from_number(n: u64) -> Side
        ensures { result ≡ side_named n }
    {
        if n == 0 { Side::A } else { Side::B }
    }

    // The channel's number for such a program.
    pub fn number(self) -> u64
        ensures { result ≡ side_number self }
    {
        self as u64
    }

    // The channel's letter, in ASCII.
    #[tactic(auto, unfolding(model::specs::Replay::side_letter))]
    pub fn letter(self) -> u8
        ensures { result ≡ side_letter (model_side self) }
    {
        match self {
            Side::A => b'A',
            Side::B => b'B',
        }
    }
}

// A channel is printed as its letter.
impl fmt::Display for Side {
    ghost output = { λ s. Some (side_letter (model_side s) ∷ []) };

    fn fmt<W: fmt::Write>(&self, f: &mut fmt::Formatter<W>) -> fmt::Result {
        f.write_char(char::from(self.letter()))
    }
}

// The six sizes of a receiver.
#[derive(Clone, Copy, PartialEq, Eq, Debug)]
pub struct Sizes {
    pub packet: usize,
    pub target: usize,
    pub max: usize,
    pub bins: usize,
    pub width: usize,
    pub height: usize,
}

impl Sizes {
    // The six sizes as numbers, in the order of the fields.
    pub fn numbers(self) -> [u64; 6]
        ensures { result ≡ size_numbers self }
    {
        [
            self.packet as u64,
            self.target as u64,
            self.max as u64,
            self.bins as u64,
            self.width as u64,
            self.height as u64,
        ]
    }
}

// A channel's estimates at setup, as bit patterns.
#[derive(Clone, Copy, PartialEq, Eq, Debug, Default)]
pub struct Estimates {
    pub top: u32,
    pub floor: u32,
    pub range: u32,
}

// A channel's settings as a set call gives them: the floats are bit patterns.
#[derive(Clone, Copy, PartialEq, Eq, Debug)]
pub struct Settings {
    pub adaptive: bool,
    pub top: u32,
    pub range: u32,
    pub zoom: u32,
    pub smoothing: u32,
}

// The counts that a depth call gives.
#[derive(Clone, Copy, PartialEq, Eq, Debug, Default)]
pub struct DepthCounts {
    pub conceals: u64,
    pub late: u64,
    pub overflow: u64,
    pub resyncs: u64,
}

// A probe's four times, in nanoseconds: client send, server receive, server send and client receive.
#[derive(Clone, Copy, PartialEq, Eq, Debug)]
pub struct ProbeTimes {
    pub t1: u64,
    pub t2: u64,
    pub t3: u64,
    pub t4: u64,
}

// A one-way time: when the client received a packet and when the server sent it, in nanoseconds of the clock of each.
#[derive(Clone, Copy, PartialEq, Eq, Debug)]
pub struct OneWayTimes {
    pub receive: u64,
    pub send: u64,
}

// The samples of a play: taken from the queue, dropped before them, and made up behind them.
#[derive(Clone, Copy, PartialEq, Eq, Debug)]
pub struct PlayedSamples {
    pub taken: usize,
    pub dropped: usize,
    pub short: usize,
}

impl PlayedSamples {
    // The three numbers, in the order in which they are told.
    pub fn words(self) -> [u64; 3]
        ensures { result ≡ play_words self }
    {
        [self.taken as u64, self.dropped as u64, self.short as u64]
    }
}

// The questions that an operation asks before it acts, with their numbers, by what a "no" says.
#[derive(Clone, Copy, PartialEq, Eq, Debug)]
pub enum Refusal {
    // The sizes are out of range.
    Sizes = 1,
    // An area or a target is too short.
    NoRoom = 2,
    // No receiver could hold this state.
    NotHeld = 3,
    // As many calls as are counted were accepted.
    TooManyCalls = 4,
    // A setting is not finite.
    NotFinite = 5,
    // The datagram is too short or too long.
    Length = 6,
    // The magic is wrong, or the version is not known.
    Header = 7,
    // A row would have more bins than there are.
    Total = 8,
    // A number is out of its range.
    Range = 9,
    // The packet is not the time-sync packet that was asked for.
    NotTimePacket = 10,
    // A tape's word is not laid out well, or a call does not fit its tape fields.
    BadWord = 11,
}

impl Refusal {
    // The question's number.
    pub fn number(self) -> u32
        ensures { result ≡ refusal_number self }
    {
        self as u32
    }
}
