// What a replay wants to know of a call before it is made.
ghost use Rattle.std.specs.Prelude.{◌≡◌};
ghost use Rattle.model.specs.Framing.{stream_in};
ghost use Rattle.calls.specs.Views.{sizes_of};
ghost use Rattle.tape.specs.Answers.{CallInside, Inside, model_call, model_found};
ghost use Rattle.receiver_datagrams.specs.Promises.{model_stream};
ghost use Rattle.calls.specs.declared.Side.TheVariants as Side;
ghost use Rattle.playback_parts.specs.Facts.{StreamFound, CallFacts, FactsOf};

use calls::{Side, Sizes};
use receiver_datagrams::{Stream, stream_of};
use receiver_state::readings::row_place;
use tape::{BadWord, Call, Found, Placed};

// Of a call the channel that it is for, the place behind it, the samples that it asks for, and where a row that it completes
// stands.
#[derive(Clone, Copy)]
pub struct Facts {
    pub side: Side,
    pub next: usize,
    pub samples: usize,
    pub row: usize,
}

// The stream of a datagram; one without a header is of no channel.
fn stream_in(bytes: &[u8]) -> Stream
    ensures { model_stream result ≡ stream_in bytes.now }
{
    bytes.get(3).map_or(Stream::Other, |t| stream_of(*t))
}

// A channel and a row's place, for a stream.
#[derive(Clone, Copy)]
pub struct StreamFacts {
    pub side: Side,
    pub row: usize,
}

fn stream_facts(z: Sizes, stream: Stream) -> StreamFacts
    ensures { StreamFound (sizes_of z) (model_stream stream) result }
{
    match stream {
        Stream::Audio(side) => StreamFacts { side, row: 0 },
        Stream::Waterfall(side) => StreamFacts {
            side,
            row: row_place(z, side).unwrap_or(0),
        },
        Stream::Other => StreamFacts {
            side: Side::A,
            row: 0,
        },
    }
}

// Of a call of the clock.
fn of_clock(next: usize) -> Facts
    ensures { result ≡ record { side = Side.A; next = next; samples = 0; row = 0 } }
{
    Facts {
        side: Side::A,
        next,
        samples: 0,
        row: 0,
    }
}

// Of a call at a place.
#[tactic(auto, unfolding(model::specs::Replay::side_of))]
fn call_facts(z: Sizes, tape: &[u8], placed: Placed) -> Facts
    requires { CallInside tape.now placed.call }
    ensures { CallFacts (sizes_of z) (model_call tape.now placed.call) placed.next result }
{
    let plain = of_clock(placed.next);
    match placed.call {
        Call::Datagram { at, len } => {
            let stream = stream_in(&tape[at..at + len]);
            let known = stream_facts(z, stream);
            Facts {
                side: known.side,
                row: known.row,
                ..plain
            }
        }
        Call::Play { side, samples } => Facts {
            side,
            samples: samples as usize,
            ..plain
        },
        Call::Reset { side } | Call::Set { side, .. } => Facts { side, ..plain },
        Call::Probe(_) | Call::OneWay(_) | Call::Depth { .. } | Call::TransmitDepth { .. } => plain,
    }
}

// Of what stands at a place; none where the tape ends there.
pub fn facts_of(z: Sizes, tape: &[u8], found: Found) -> Result<Option<Facts>, BadWord>
    requires { Inside tape.now found }
    ensures { FactsOf (sizes_of z) (model_found tape.now found) result }
{
    Ok(found?.map(|placed| call_facts(z, tape, placed)))
}
