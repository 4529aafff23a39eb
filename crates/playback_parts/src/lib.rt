// Where a replay is, and the parts of its steps: what is to be known of a call before it is made, values of a line as many at a
// time as there is room for, and the closing lines.
#![tactic(auto)]

pub mod closing;
pub mod facts;
pub mod parts;

ghost use Rattle.std.specs.Prelude.{◌≡◌};
ghost use Rattle.playback_parts.specs.Doings.{makes_call};

use receiver_state::Receiver;

// No piece is longer. That a text has room for one stays in the contracts: a type with that fact would hold a `&mut`, and each
// contract had to say in its place that the reference is kept.
pub const PIECE: usize = 170;

// What is printed of a tape.
#[derive(Clone, Copy)]
pub enum Form {
    // Every line whole.
    Full,
    // A play's line without its samples, and of a row its length.
    Summary,
}

// What a step prints next.
#[derive(Clone, Copy)]
pub enum Doing {
    // The line of the call at the place, as far as its values.
    Call,
    // A play's samples from one place to another, then the line's end.
    Samples { from: usize, end: usize },
    // Values of the f32 area from one place to another, then the line's end.
    Values { from: usize, end: usize },
    // The closing lines behind A's.
    LineB,
    LineI,
    LineC,
    Done,
}

impl Doing {
    // Whether a call comes next, or the tape's end.
    pub fn is_call(self) -> bool
        ensures { result ≡ makes_call self }
    {
        matches!(self, Doing::Call)
    }
}

// Where a replay is: the receiver, the tape's next place, and what is printed next.
#[derive(Clone, Copy)]
pub struct Playback {
    pub receiver: Receiver,
    pub place: usize,
    pub doing: Doing,
}
