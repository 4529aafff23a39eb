// Questions 1 to 4, which every call asks before its own; and 2 and 5, as setup and set ask them.
ghost use Rattle.std.specs.Prelude.{◌≡◌, ◌≤◌, true, ◌&&◌, length};
ghost use Rattle.model.specs.Sizes.{sizes_allowed, word_area};
ghost use Rattle.model.specs.Questions.{areas_long, estimates_finite, settings_finite};
ghost use Rattle.calls.specs.Views.{sizes_of, model_estimates, model_settings};
ghost use Rattle.receiver_state.specs.View.{lent_of};
ghost use Rattle.receiver_state.specs.Promises.{counts_held, StateAsked, EarlyAsked};

use crate::Receiver;
use calls::{Estimates, Refusal, Settings};
use sizes::AllowedSizes;

// Question 3 of the clock and the counts.
fn counts_could_be_held(r: Receiver) -> bool
    ensures { result ≡ counts_held r }
{
    r.clock.could_be_held()
        && udp::incoming_could_be_held(r.incoming, r.calls)
        && r.audio.could_be_held(r.calls)
        && r.waterfall.could_be_held(r.calls)
}

// Question 3: whether a receiver could hold this state.
#[tactic(auto, using(crate::proofs::StateQuestions::word_area_is))]
fn could_be_held(r: Receiver, us: &[u32]) -> bool
    requires { (sizes_allowed (sizes_of r.sizes) ≡ true) × (word_area (sizes_of r.sizes) ≤ length us.now) }
    ensures { StateAsked r us.now result }
{
    // Made anew from the clause: handed on they would need another, that they are the receiver's.
    let z = AllowedSizes { sizes: r.sizes };
    let start = z.word_section();
    r.a.could_be_held(z, us, r.calls)
        && r.b.could_be_held(z, &us[start..], r.calls)
        && counts_could_be_held(r)
}

// Questions 1 to 4, in their order: the first that is answered with no, if one is. (The state goes in by value, and both areas
// are lent with each call, since C keeps them: no struct has them together.)
pub fn asked(r: Receiver, fs: &[f32], us: &[u32]) -> Result<(), Refusal>
    ensures { EarlyAsked r fs.now us.now result }
{
    let sizes = AllowedSizes::of(r.sizes).ok_or(Refusal::Sizes)?;
    if !areas_long(sizes, fs, us) {
        return Err(Refusal::NoRoom);
    }
    if !could_be_held(r, us) {
        return Err(Refusal::NotHeld);
    }
    if r.calls >= 4294967295 {
        return Err(Refusal::TooManyCalls);
    }
    Ok(())
}

// Question 2: whether both areas are long enough.
#[tactic(auto, unfolding(model::specs::Questions::areas_long))]
pub fn areas_long(z: AllowedSizes, fs: &[f32], us: &[u32]) -> bool
    ensures { result ≡ areas_long (lent_of fs.now us.now) (sizes_of z.sizes) }
{
    z.float_area() <= fs.len() && z.word_area() <= us.len()
}

// Question 5 of one channel's estimates: whether each is the pattern of a finite float.
#[tactic(auto, unfolding(model::specs::Questions::estimates_finite, model::specs::Questions::finite_bits))]
fn estimates_finite(e: Estimates) -> bool
    ensures { result ≡ estimates_finite (model_estimates e) }
{
    [e.top, e.floor, e.range]
        .iter()
        .all(|bits| floats::is_finite(floats::from_bits(*bits)))
}

// Question 5 of both channels' estimates.
pub fn both_finite(a: Estimates, b: Estimates) -> bool
    ensures { result ≡ estimates_finite (model_estimates a) && estimates_finite (model_estimates b) }
{
    estimates_finite(a) && estimates_finite(b)
}

// Question 5 of settings: whether each is the pattern of a finite float.
#[tactic(auto, unfolding(model::specs::Questions::settings_finite, model::specs::Questions::finite_bits))]
pub fn settings_finite(x: Settings) -> bool
    ensures { result ≡ settings_finite (model_settings x) }
{
    [x.top, x.range, x.zoom, x.smoothing]
        .iter()
        .all(|bits| floats::is_finite(floats::from_bits(*bits)))
}
