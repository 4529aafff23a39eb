// The replay of document 01: a tape of at most 65,536 bytes. (What is lent goes in slice by slice, as in `playback_opening`.)
ghost use Rattle.model.specs.Replay.{replay_within};
ghost use Rattle.receiver_state.specs.View.{lent_of};
ghost use Rattle.playback_opening.specs.Beginnings.{BegunTo};

use crate::{NotBegun, begin, refuse};
use playback_parts::Playback;

// A longer tape is refused at the place behind its first 16,384 words.
pub fn begin_limited(
    fs: &[f32],
    us: &mut [u32],
    tape: &[u8],
    text: &mut [u8],
) -> Result<Playback, NotBegun>
    ensures { BegunTo (replay_within (lent_of fs.now us.old) 16384 tape.now) tape.now fs.now us.old text.old result us.new text.new }
{
    if 65536 < tape.len() {
        return Err(refuse(text, 16384));
    }
    begin(fs, us, tape, text)
}
