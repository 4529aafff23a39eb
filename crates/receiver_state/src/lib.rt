// A receiver's state, the questions about it, its readings, and the work on one channel before a call is counted. The state
// goes in by value and comes back; the two areas are lent. The crates receiver and receiver_datagrams have the calls.
#![tactic(auto)]

ghost use Rattle.std.specs.Prelude.{◌≡◌};
ghost use Rattle.receiver_state.specs.Fresh.{FreshReceiver};
ghost use Rattle.receiver_state.specs.View.{numbered};

pub mod asking;
pub mod counted;
pub mod readings;
pub mod report;
pub mod sides;

use audio_metrics::AudioMetrics;
use calls::{Estimates, PlayedSamples, Refusal, Sizes};
use channel::Channel;
use udp::StreamCounts;

#[derive(Clone, Copy)]
pub struct Receiver {
    pub sizes: Sizes,
    // Accepted calls since setup.
    pub calls: u64,
    // Datagrams with a valid header.
    pub incoming: u64,
    // The sequence counts of streams 1 and 2.
    pub audio: StreamCounts,
    pub waterfall: StreamCounts,
    pub a: Channel,
    pub b: Channel,
    pub clock: AudioMetrics,
}

impl Receiver {
    // The receiver before its first call. Sizes and estimates are any.
    pub fn new(sizes: Sizes, a: Estimates, b: Estimates) -> Self
        ensures { FreshReceiver sizes a b result }
    {
        Receiver {
            sizes,
            calls: 0,
            incoming: 0,
            audio: StreamCounts::new(),
            waterfall: StreamCounts::new(),
            a: Channel::new(a),
            b: Channel::new(b),
            clock: AudioMetrics::new(),
        }
    }
}

// What an accepted call answers.
#[derive(Clone, Copy, PartialEq, Eq, Debug)]
pub enum Answer {
    Accepted,
    Played(PlayedSamples),
    // A datagram that completed no row.
    NoRow,
    // A datagram that completed a row of so many bins; row_place tells where they stand.
    Row(usize),
}

// What a call leaves and answers. Where it is refused, the error is the first question that was answered with no, and nothing
// was changed.
#[derive(Clone, Copy)]
pub struct Answered {
    pub receiver: Receiver,
    pub answer: Result<Answer, Refusal>,
}

// A refusal by its question's number, for what prints answers and what hands them to other languages: both take any number.
pub fn numbered<T>(said: Result<T, Refusal>) -> Result<T, u32>
    ensures { result ≡ numbered said }
{
    said.map_err(Refusal::number)
}
