// The replay of a tape, step by step. A step writes a piece of text at the front of lent bytes: what the steps write, one
// after the other, is what a replay prints.
#![tactic(auto)]

pub mod stepping;

ghost use Rattle.std.specs.Prelude.{◌≡◌};
ghost use Rattle.playback.specs.declared.StepError.TheVariants.{Bad};

use playback_parts::Playback;
use tape::BadWord;

// What a step wrote.
#[derive(Clone, Copy)]
pub struct Wrote {
    pub playback: Playback,
    pub bytes: usize,
}

// Why a step was not made.
#[derive(Clone, Copy, PartialEq, Eq, Debug)]
pub enum StepError {
    // Refusal 2: text of less than 170 bytes, or fewer samples than the call asks for.
    NoRoom,
    // Refusal 3: values that lie outside of what is lent.
    NotHeld,
    // Refusal 11: no call stands at that place.
    Bad(BadWord),
}

impl From<BadWord> for StepError {
    ghost from_gives = { λ bad why. why ≡ Bad bad };

    fn from(bad: BadWord) -> StepError {
        StepError::Bad(bad)
    }
}

// What a step answers: what it wrote, or none where all is printed. Nothing is changed but by a step that wrote.
pub type Step = Result<Option<Wrote>, StepError>;
