// The lines of a summary, as pieces of text at the front of lent bytes. (That a text has room for one stays in the contracts, as in
// `playback_parts`.)
#![tactic(auto)]

ghost use Rattle.std.specs.Prelude.{[], ◌∷◌, map, ◌+◌, ◌*◌, ◌≤◌, length};
ghost use Rattle.model.specs.Replay.{decimal, line, side_letter};
ghost use Rattle.calls.specs.Views.{model_side};
ghost use Rattle.playback_parts.specs.Parts.{TextPut};
ghost use Rattle.summary_lines.specs.Summaries.{SummaryPut};

use calls::Side;
use receiver_state::Answer;

// A letter, a channel and numbers, to the line's end.
fn put_numbered(text: &mut [u8], letter: u8, side: Side, numbers: &[u64]) -> usize
    requires { 4 + 21 * length numbers.now ≤ length text.old }
    ensures { TextPut (line letter ((side_letter (model_side side) ∷ []) ∷ map decimal numbers.now)) text.old text.new result }
{
    let end = lines::put_head(text, letter, side, numbers).unwrap();
    text[end] = b'\n';
    end + 1
}

// The summary's line of an answer, with a refusal by its number. Where the answer is a row, `values` is how many it has.
pub fn put_summary(text: &mut [u8], side: Side, answer: Result<Answer, u32>, values: usize) -> usize
    requires { 170 ≤ length text.old }
    ensures { SummaryPut (model_side side) answer values text.old text.new result }
{
    match answer {
        Err(number) => lines::put_refusal(text, number).unwrap(),
        Ok(Answer::Accepted | Answer::NoRow) => 0,
        Ok(Answer::Played(p)) => put_numbered(text, b'P', side, &p.words()),
        Ok(Answer::Row(_)) => put_numbered(text, b'W', side, &[values as u64]),
    }
}
