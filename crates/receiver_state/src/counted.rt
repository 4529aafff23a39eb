// What a call leaves, refused or not, and a receiver with one part changed. Here alone it is said what a refusal leaves, and
// accepted calls and valid headers are counted.
ghost use Rattle.std.specs.Prelude.{◌≡◌, ◌+◌, ◌<◌, ◌^◌};
ghost use Rattle.model.specs.Questions.{most_calls};
ghost use Rattle.receiver_state.specs.declared.Answer.TheVariants.{Accepted};
ghost use Rattle.receiver_state.specs.Fields.{answered, counted, clock_set, header_set};

use crate::{Answer, Answered, Receiver};
use audio_metrics::AudioMetrics;
use calls::Refusal;
use udp::StreamCounts;

// What a call leaves and answers: its work's, or a refusal.
pub fn answered(r: Receiver, work: Result<(Receiver, Answer), Refusal>) -> Answered
    ensures { result ≡ answered r work }
{
    match work {
        Err(why) => Answered {
            receiver: r,
            answer: Err(why),
        },
        Ok((receiver, answer)) => Answered {
            receiver,
            answer: Ok(answer),
        },
    }
}

// One accepted call more.
pub fn count_call(r: Receiver) -> Receiver
    requires { r.calls < most_calls }
    ensures { result ≡ counted r }
{
    Receiver {
        calls: r.calls + 1,
        ..r
    }
}

// One accepted call more, that answers nothing else.
pub fn accepted(r: Receiver) -> (Receiver, Answer)
    requires { r.calls < most_calls }
    ensures { result ≡ (counted r, Accepted) }
{
    (count_call(r), Answer::Accepted)
}

// Another clock.
pub fn with_clock(r: Receiver, clock: AudioMetrics) -> Receiver
    ensures { result ≡ clock_set clock r }
{
    Receiver { clock, ..r }
}

// One valid header more, with these counts.
pub fn count_header(r: Receiver, audio: StreamCounts, waterfall: StreamCounts) -> Receiver
    requires { r.incoming + 1 < 2 ^ 64 }
    ensures { result ≡ header_set audio waterfall r }
{
    Receiver {
        incoming: r.incoming + 1,
        audio,
        waterfall,
        ..r
    }
}
