// The beginning of a replay: the whole tape is checked, and then setup is made. (Areas, tape and text are lent one by one: a
// struct with them would hold a `&mut`, of which each contract had to say that it is kept.)
#![tactic(auto)]

pub mod limits;

ghost use Rattle.model.specs.Replay.{replay_over};
ghost use Rattle.receiver_state.specs.View.{lent_of};
ghost use Rattle.calls.specs.Views.{model_setup};
ghost use Rattle.playback_opening.specs.Beginnings.{RefusedAt, SetupBegun, BegunTo};

use playback_parts::{Doing, PIECE, Playback};
use tape::{FIRST_CALL, Setup};

// Why a replay does not begin.
#[derive(Clone, Copy, PartialEq, Eq, Debug)]
pub enum NotBegun {
    // Refusal 2: text of less than 170 bytes. Nothing was done.
    NoRoom,
    // The tape or its setup is refused: the line of so many bytes is all that is printed.
    Refused(usize),
}

// The line of a tape that is refused at a place.
#[tactic(auto, unfolding(model::specs::Replay::bad_tape_line))]
pub fn refuse(text: &mut [u8], place: usize) -> NotBegun
    ensures { RefusedAt place text.old result text.new }
{
    if text.len() < PIECE {
        return NotBegun::NoRoom;
    }
    NotBegun::Refused(lines::put_line(text, b'X', &[11, place as u64]).unwrap())
}

// Setup by what a tape says. The areas may hold anything, and only the u32 area is written. (No `map_err`, and none in `begin`: tried here,
// and no fact says that the text stays where the closure that writes it is not called.)
pub fn set_up(
    setup: Setup,
    fs: &[f32],
    us: &mut [u32],
    text: &mut [u8],
) -> Result<Playback, NotBegun>
    ensures { SetupBegun (model_setup setup.sizes setup.a setup.b) fs.now us.old text.old result us.new text.new }
{
    if text.len() < PIECE {
        return Err(NotBegun::NoRoom);
    }
    match receiver_setup::setup(setup.sizes, setup.a, setup.b, fs, us) {
        Err(why) => Err(NotBegun::Refused(lines::put_refusal(text, why.number()).unwrap())),
        Ok(receiver) => Ok(Playback {
            receiver,
            place: FIRST_CALL,
            doing: Doing::Call,
        }),
    }
}

// By the whole tape.
pub fn begin(fs: &[f32], us: &mut [u32], tape: &[u8], text: &mut [u8]) -> Result<Playback, NotBegun>
    ensures { BegunTo (replay_over (lent_of fs.now us.old) tape.now) tape.now fs.now us.old text.old result us.new text.new }
{
    match tape::reader::setup_of(tape) {
        Ok(setup) => set_up(setup, fs, us, text),
        Err(bad) => Err(refuse(text, bad.place)),
    }
}
