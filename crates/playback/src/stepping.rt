// A step of a replay.
// Lent one by one: of a struct of slices each contract had to say that each reference is kept, and each loop that each length is.
// That a text has room for a piece stays in the contracts, as in `playback_parts`.
ghost use Rattle.std.specs.Prelude.{◌&&◌, ◌≡◌, ◌≤◌, length, Ok, Some};
ghost use Rattle.playback.specs.Steps.{doing_after, row_length, CallBegun, MakeReady, PartDone, DoneAs, StepDone};
ghost use Rattle.playback_parts.specs.declared.Doing.TheVariants as Doing;
ghost use Rattle.playback_parts.specs.declared.Form.TheVariants as Form;

use crate::{Step, StepError, Wrote};
use calls::{Refusal, Side};
use playback_parts::closing::{put_incoming, put_sound, put_times};
use playback_parts::facts::{Facts, facts_of};
use playback_parts::parts::put_part;
use playback_parts::{Doing, Form, PIECE, Playback};
use receiver_state::report::report_of;
use receiver_state::{Answer, Answered, numbered};
use replaying::acting::act;
use replaying::printing::{Left, begin_line};
use summary_lines::put_summary;
use tape::Found;

// ---- a call

// What is printed behind the beginning of a call's line: values inside of what is lent. (How far a row's go is said here and in `row_length`:
// one function for both would answer their place and their count, and `row_length` would drop the place.)
fn doing_after(left: Left, facts: Facts, fs: &[f32]) -> Doing
    ensures { result ≡ doing_after left facts (length fs.now) }
{
    match left {
        Left::Nothing => Doing::Call,
        Left::Samples => Doing::Samples {
            from: 0,
            end: facts.samples,
        },
        Left::Values(n) => {
            let from = facts.row.min(fs.len());
            let count = n.min(fs.len() - from);
            Doing::Values {
                from,
                end: from + count,
            }
        }
    }
}

// The beginning of a call's line, and where the replay is behind it. (Answer and facts go in side by side, here and below: a struct of
// both would be made at one place alone, and each use of them would name one field more.)
fn begun_full(v: Answered, facts: Facts, fs: &[f32], text: &mut [u8]) -> Wrote
    requires { 170 ≤ length text.old }
    ensures { CallBegun Form.Full v facts fs.now text.old text.new result }
{
    let line = begin_line(text, facts.side, numbered(v.answer));
    Wrote {
        playback: Playback {
            receiver: v.receiver,
            place: facts.next,
            doing: doing_after(line.left, facts, fs),
        },
        bytes: line.written,
    }
}

// How many values of a row lie inside of what is lent.
fn row_length(answer: Result<Answer, Refusal>, facts: Facts, fs: &[f32]) -> usize
    ensures { result ≡ row_length answer facts (length fs.now) }
{
    match answer {
        Ok(Answer::Row(n)) => {
            let from = facts.row.min(fs.len());
            n.min(fs.len() - from)
        }
        _ => 0,
    }
}

// A call's line in a summary, which is all of it.
fn begun_summary(v: Answered, facts: Facts, fs: &[f32], text: &mut [u8]) -> Wrote
    requires { 170 ≤ length text.old }
    ensures { CallBegun Form.Summary v facts fs.now text.old text.new result }
{
    let values = row_length(v.answer, facts, fs);
    Wrote {
        playback: Playback {
            receiver: v.receiver,
            place: facts.next,
            doing: Doing::Call,
        },
        bytes: put_summary(text, facts.side, numbered(v.answer), values),
    }
}

fn begun(v: Answered, facts: Facts, fs: &[f32], text: &mut [u8], form: Form) -> Wrote
    requires { 170 ≤ length text.old }
    ensures { CallBegun form v facts fs.now text.old text.new result }
{
    match form {
        Form::Full => begun_full(v, facts, fs, text),
        Form::Summary => begun_summary(v, facts, fs, text),
    }
}

// The call that was found, and the beginning of its line.
fn made(
    w: Playback,
    fs: &mut [f32],
    us: &mut [u32],
    tape: &[u8],
    found: Found,
    facts: Facts,
    samples: &mut [f32],
    text: &mut [u8],
    form: Form,
) -> Step
    requires { MakeReady tape.now w found facts text.old }
    ensures { DoneAs form tape.now w fs.old us.old samples.old text.old result fs.new us.new samples.new text.new }
{
    // That no call was found never comes, as the facts are those of one.
    let Ok(v) = act(w.receiver, fs, us, tape, found, samples) else {
        return Err(StepError::NoRoom);
    };
    Ok(Some(begun(v, facts, fs, text, form)))
}

// ---- what prints without a call

// A step that wrote so many bytes, and by which nothing but what is printed next has changed.
fn on(w: Playback, doing: Doing, bytes: usize) -> Step
    ensures { result ≡ Ok (Some (record { playback = record { receiver = w.receiver; place = w.place; doing = doing }; bytes = bytes })) }
{
    Ok(Some(Wrote {
        playback: Playback { doing, ..w },
        bytes,
    }))
}

// ---- values

// Of a line's values as many as fit, or the line's end. Where values are left, the next thing is what `again` makes of their place.
fn part_of<F: Fn(usize) -> Doing>(
    w: Playback,
    text: &mut [u8],
    values: &[f32],
    from: usize,
    end: usize,
    again: F,
) -> Step
    requires called { F.IsAlwaysCallable again }
    requires room { 170 ≤ length text.old }
    ensures { PartDone (F.post again) w values.now from end text.old result text.new }
{
    let rest = values.get(from..end).ok_or(StepError::NotHeld)?;
    let part = put_part(text, rest);
    // No `map_or`: its closure would add any number to the place.
    let doing = match part.next {
        Some(n) => again(from + n),
        None => Doing::Call,
    };
    on(w, doing, part.bytes)
}

// ---- a step

// The call at the place, or A's line where the calls have ended.
fn called(
    w: Playback,
    fs: &mut [f32],
    us: &mut [u32],
    tape: &[u8],
    samples: &mut [f32],
    text: &mut [u8],
    form: Form,
) -> Step
    requires { (w.doing ≡ Doing.Call) × (170 ≤ length text.old) }
    ensures { DoneAs form tape.now w fs.old us.old samples.old text.old result fs.new us.new samples.new text.new }
{
    let found = tape::reader::call_at(tape, w.place);
    match facts_of(w.receiver.sizes, tape, found)? {
        Some(facts) => made(w, fs, us, tape, found, facts, samples, text, form),
        None => on(
            w,
            Doing::LineB,
            put_sound(text, Side::A, report_of(w.receiver).a),
        ),
    }
}

// The next piece of what a replay prints in this form, at the front of the text.
pub fn step_as(
    w: Playback,
    fs: &mut [f32],
    us: &mut [u32],
    tape: &[u8],
    samples: &mut [f32],
    text: &mut [u8],
    form: Form,
) -> Step
    ensures { DoneAs form tape.now w fs.old us.old samples.old text.old result fs.new us.new samples.new text.new }
{
    if text.len() < PIECE {
        return Err(StepError::NoRoom);
    }
    match w.doing {
        Doing::Call => called(w, fs, us, tape, samples, text, form),
        Doing::Samples { from, end } => {
            part_of(
                w,
                text,
                samples,
                from,
                end,
                |k| Doing::Samples { from: k, end },
            )
        }
        Doing::Values { from, end } => {
            part_of(w, text, fs, from, end, |k| Doing::Values { from: k, end })
        }
        Doing::LineB => on(
            w,
            Doing::LineI,
            put_sound(text, Side::B, report_of(w.receiver).b),
        ),
        Doing::LineI => on(w, Doing::LineC, put_incoming(text, report_of(w.receiver))),
        Doing::LineC => on(w, Doing::Done, put_times(text, report_of(w.receiver))),
        Doing::Done => Ok(None),
    }
}

// The same with every line whole.
pub fn step(
    w: Playback,
    fs: &mut [f32],
    us: &mut [u32],
    tape: &[u8],
    samples: &mut [f32],
    text: &mut [u8],
) -> Step
    ensures { StepDone tape.now w fs.old us.old samples.old text.old result fs.new us.new samples.new text.new }
{
    step_as(w, fs, us, tape, samples, text, Form::Full)
}
