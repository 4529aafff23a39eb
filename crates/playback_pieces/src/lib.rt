// The steps of a replay one after the other, each piece of text behind the last one, as far as the lent bytes have room. So
// a program writes many pieces at once. (What is lent goes in slice by slice, as in `playback::stepping`.)
#![tactic(auto)]

ghost use Rattle.std.specs.Prelude.{◌≡◌, ◌≤◌, length};
ghost use Rattle.playback_pieces.specs.Gathered.{comes_before, moment, Further, AllGathered};

use playback::Wrote;
use playback::stepping::step_as;
use playback_parts::{Form, PIECE, Playback};

// Why no further step was made. (No Result: none of the three is a failure, and callers go on from two of them.)
#[derive(Clone, Copy, PartialEq, Eq, Debug)]
pub enum Stop {
    // There is no room for another piece.
    Full,
    // The next call stands at the place that was named, or behind it.
    Far,
    // The next step writes nothing: all is printed, or it is refused.
    Ended,
}

// What the steps wrote: so many bytes at the front of the text.
#[derive(Clone, Copy)]
pub struct Gathered {
    pub playback: Playback,
    pub bytes: usize,
    pub stop: Stop,
}

// Whether what is printed next is no call, or a call before the place `until`, where one is named.
fn comes_before(w: Playback, until: Option<usize>) -> bool
    ensures { result ≡ comes_before w until }
{
    !w.doing.is_call() || until.is_none_or(|u| w.place < u)
}

// One step, whose piece stands behind the bytes that are there; none where it writes nothing.
fn one(
    p: Wrote,
    fs: &mut [f32],
    us: &mut [u32],
    tape: &[u8],
    samples: &mut [f32],
    text: &mut [u8],
    form: Form,
) -> Option<Wrote>
    requires { p.bytes ≤ length text.old }
    ensures { Further form tape.now p fs.old us.old samples.old text.old result fs.new us.new samples.new text.new }
{
    let at = p.bytes;
    let v = step_as(p.playback, fs, us, tape, samples, &mut text[at..], form).ok()??;
    Some(Wrote {
        bytes: at + v.bytes,
        ..v
    })
}

fn stopped(p: Wrote, stop: Stop) -> Gathered
    ensures { result ≡ record { playback = p.playback; bytes = p.bytes; stop = stop } }
{
    Gathered {
        playback: p.playback,
        bytes: p.bytes,
        stop,
    }
}

// Steps with no call at the place `until` or behind it, where one is named, until the text has no room for a piece or a step writes nothing.
pub fn pieces(
    w: Playback,
    fs: &mut [f32],
    us: &mut [u32],
    tape: &[u8],
    until: Option<usize>,
    samples: &mut [f32],
    text: &mut [u8],
    form: Form,
) -> Gathered
    ensures { AllGathered form tape.now until (moment w fs.old us.old samples.old) text.old result (moment result.playback fs.new us.new samples.new) text.new }
{
    let mut p = Wrote {
        playback: w,
        bytes: 0,
    };
    // No `for`: how many bytes a step takes is known only once it is made.
    while PIECE <= text.len() - p.bytes {
        if !comes_before(p.playback, until) {
            return stopped(p, Stop::Far);
        }
        let Some(next) = one(p, fs, us, tape, samples, text, form) else {
            return stopped(p, Stop::Ended);
        };
        p = next;
    }
    stopped(p, Stop::Full)
}
