// A channel's reset and its settings. They leave both areas as they are.
// State and areas go in one by one: C lends both areas so with each call, and a struct of them would be made at each call.
ghost use Rattle.std.specs.Prelude.{[]};
ghost use Rattle.model.specs.Receiver.{reset, set};
ghost use Rattle.calls.specs.Views.{model_side, model_settings};
ghost use Rattle.receiver_state.specs.View.{answer_of};
ghost use Rattle.receiver_state.specs.Promises.{Called};
ghost use Rattle.receiver.specs.Promises.{Worked};

use calls::{Refusal, Settings, Side};
use receiver_state::asking::{asked, settings_finite};
use receiver_state::counted::{accepted, answered};
use receiver_state::sides::{channel_of, with_channel};
use receiver_state::{Answer, Answered, Receiver};

// A reset's work. (No function for both with a closure, as the clock's calls have: with its contract it is as long as these two.)
fn cleared(r: Receiver, fs: &[f32], us: &[u32], side: Side) -> Result<(Receiver, Answer), Refusal>
    ensures { Worked (reset (model_side side)) r fs.now us.now result }
{
    asked(r, fs, us)?;
    let channel = channel_of(r, side).reset();
    Ok(accepted(with_channel(r, side, channel)))
}

// New settings' work.
fn adjusted(
    r: Receiver,
    fs: &[f32],
    us: &[u32],
    side: Side,
    settings: Settings,
) -> Result<(Receiver, Answer), Refusal>
    ensures { Worked (set (model_side side) (model_settings settings)) r fs.now us.now result }
{
    asked(r, fs, us)?;
    if !settings_finite(settings) {
        return Err(Refusal::NotFinite);
    }
    let channel = channel_of(r, side).set(settings);
    Ok(accepted(with_channel(r, side, channel)))
}

// Clears a channel's jitter buffer, but for its largest buffered amount.
pub fn reset(r: Receiver, fs: &[f32], us: &[u32], side: Side) -> Answered
    ensures { Called (reset (model_side side)) r fs.now us.now (answer_of result.answer []) result.receiver fs.now us.now }
{
    answered(r, cleared(r, fs, us, side))
}

// New settings of a channel. Its estimates stay.
pub fn set(r: Receiver, fs: &[f32], us: &[u32], side: Side, settings: Settings) -> Answered
    ensures { Called (set (model_side side) (model_settings settings)) r fs.now us.now (answer_of result.answer []) result.receiver fs.now us.now }
{
    answered(r, adjusted(r, fs, us, side, settings))
}
