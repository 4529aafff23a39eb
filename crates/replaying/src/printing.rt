// How a call's line begins: all of it where it is short, and of a play's or a row's what stands before its values.
ghost use Rattle.std.specs.Prelude.{◌≤◌, length};
ghost use Rattle.calls.specs.Views.{model_side};
ghost use Rattle.replaying.specs.Printing.{LineBegun};

use calls::Side;
use receiver_state::Answer;

// What is still to be written of a line. (No Option: samples, of which the caller knows how many there are, are not a row's values.)
#[derive(Clone, Copy)]
pub enum Left {
    Nothing,
    // A play's samples, then the line's end.
    Samples,
    // So many values of a row, then the line's end.
    Values(usize),
}

// How many bytes were written, and what is left.
#[derive(Clone, Copy)]
pub struct Begun {
    pub written: usize,
    pub left: Left,
}

// A refusal comes by its number. 66 bytes are the most that are written.
pub fn begin_line(text: &mut [u8], side: Side, answer: Result<Answer, u32>) -> Begun
    requires { 66 ≤ length text.old }
    ensures { LineBegun (model_side side) answer text.old text.new result }
{
    match answer {
        Err(number) => Begun {
            written: lines::put_refusal(text, number).unwrap(),
            left: Left::Nothing,
        },
        Ok(Answer::Accepted | Answer::NoRow) => Begun {
            written: 0,
            left: Left::Nothing,
        },
        Ok(Answer::Played(p)) => Begun {
            written: lines::put_head(text, b'P', side, &p.words()).unwrap(),
            left: Left::Samples,
        },
        Ok(Answer::Row(n)) => Begun {
            written: lines::put_head(text, b'W', side, &[]).unwrap(),
            left: Left::Values(n),
        },
    }
}
