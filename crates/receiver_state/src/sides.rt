// One channel of a receiver: where its sections begin, and calls on its sound and its rows. Channel B's sections begin in
// the middle of each area, and what is lent on to the channel's functions is the area from there on.
// State and areas go in one by one: a struct of them would need a clause on each lent slice's reference in each contract.
ghost use Rattle.std.specs.Prelude.{◌≡◌, true};
ghost use Rattle.std.proofs.Math.Option.{none};
ghost use Rattle.model.specs.Receiver.{row};
ghost use Rattle.model.specs.Questions.{total_allowed};
ghost use Rattle.model.specs.Step.{audio_into};
ghost use Rattle.calls.specs.Views.{sizes_of};
ghost use Rattle.receiver_state.specs.View.{float_start, word_start, channel_at};
ghost use Rattle.receiver_state.specs.Fields.{channel_set};
ghost use Rattle.receiver_state.specs.Promises.{SidesReady, SideTaken, RowsTaken};

use crate::Receiver;
use calls::Side;
use channel::Channel;
use reassembler::Pushed;
use sizes::AllowedSizes;

// Where a channel's sections begin in the two areas.
#[derive(Clone, Copy)]
pub struct SectionStarts {
    pub floats: usize,
    pub words: usize,
}

pub fn starts(z: AllowedSizes, side: Side) -> SectionStarts
    ensures { (result.floats ≡ float_start (sizes_of z.sizes) side) × (result.words ≡ word_start (sizes_of z.sizes) side) }
{
    match side {
        Side::A => SectionStarts {
            floats: 0,
            words: 0,
        },
        Side::B => SectionStarts {
            floats: z.float_section(),
            words: z.word_section(),
        },
    }
}

pub fn channel_of(r: Receiver, side: Side) -> Channel
    ensures { result ≡ channel_at side r }
{
    match side {
        Side::A => r.a,
        Side::B => r.b,
    }
}

// The receiver with another channel.
pub fn with_channel(r: Receiver, side: Side, channel: Channel) -> Receiver
    ensures { result ≡ channel_set side channel r }
{
    match side {
        Side::A => Receiver { a: channel, ..r },
        Side::B => Receiver { b: channel, ..r },
    }
}

// An audio payload of a channel, before the call is counted.
// (Here and below the allowed sizes are made anew from the clause: handed on they would be one parameter more, and a clause
// more, that they are the receiver's.)
#[tactic(auto, using(crate::proofs::StateQuestions::section_bounds))]
pub fn audio_on(
    r: Receiver,
    fs: &mut [f32],
    us: &mut [u32],
    side: Side,
    sequence: u32,
    payload: &[u8],
) -> Receiver
    requires { SidesReady r fs.old us.old }
    ensures { SideTaken side (audio_into (sizes_of r.sizes) sequence payload.now) r fs.old us.old (row none) result fs.new us.new }
{
    let z = AllowedSizes { sizes: r.sizes };
    let begin = starts(z, side);
    let channel = channel_of(r, side).audio(
        z,
        &mut fs[begin.floats..],
        &mut us[begin.words..],
        sequence,
        payload,
    );
    with_channel(r, side, channel)
}

// A waterfall payload of a channel, before the call is counted. The work section, behind both channels', is lent by itself.
#[tactic(auto, using(crate::proofs::StateQuestions::section_bounds))]
pub fn waterfall_on(
    r: Receiver,
    fs: &mut [f32],
    us: &mut [u32],
    side: Side,
    payload: &[u8],
) -> Pushed<Receiver>
    requires { SidesReady r fs.old us.old × (total_allowed (sizes_of r.sizes) payload.now ≡ true) }
    ensures { RowsTaken side r fs.old us.old payload.now result fs.new us.new }
{
    let z = AllowedSizes { sizes: r.sizes };
    let begin = starts(z, side);
    let (sections, work) = fs.split_at_mut(2 * z.float_section());
    let shown = channel_of(r, side).waterfall(
        z,
        &mut sections[begin.floats..],
        &mut us[begin.words..],
        &mut work[..z.sizes.bins],
        payload,
    );
    Pushed {
        state: with_channel(r, side, shown.state),
        completed: shown.completed,
    }
}
