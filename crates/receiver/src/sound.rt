// A play.
// State, areas and output go in one by one: a struct of them would need a clause on each lent slice's reference in each contract.
ghost use Rattle.model.specs.Receiver.{play};
ghost use Rattle.receiver_state.specs.Fields.{answered};
ghost use Rattle.receiver.specs.Promises.{PlayedOut};

use calls::{Refusal, Side};
use receiver_state::asking::asked;
use receiver_state::counted::{answered, count_call};
use receiver_state::sides::{channel_of, starts, with_channel};
use receiver_state::{Answer, Answered, Receiver};
use sizes::AllowedSizes;

// A play's work.
#[tactic(auto, using(receiver_state::proofs::StateQuestions::section_bounds))]
fn played(
    r: Receiver,
    fs: &mut [f32],
    us: &mut [u32],
    side: Side,
    out: &mut [f32],
) -> Result<(Receiver, Answer), Refusal>
    ensures { PlayedOut side r fs.old us.old out.old (answered r result) fs.new us.new out.new }
{
    asked(r, fs, us)?;
    if 65535 < out.len() {
        return Err(Refusal::Range);
    }
    // Made anew from what was asked, as in `receiver_state::sides`.
    let z = AllowedSizes { sizes: r.sizes };
    let begin = starts(z, side);
    let played = channel_of(r, side).play(z, &mut fs[begin.floats..], &mut us[begin.words..], out);
    Ok((
        count_call(with_channel(r, side, played.channel)),
        Answer::Played(played.samples),
    ))
}

// A play of as many samples as the output has.
pub fn play(r: Receiver, fs: &mut [f32], us: &mut [u32], side: Side, out: &mut [f32]) -> Answered
    ensures { PlayedOut side r fs.old us.old out.old result fs.new us.new out.new }
{
    answered(r, played(r, fs, us, side, out))
}
