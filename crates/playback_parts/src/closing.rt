// The closing lines, from a receiver's report.
ghost use Rattle.std.specs.Prelude.{map, ◌≤◌, length};
ghost use Rattle.model.specs.Replay.{decimal, line, channel_line};
ghost use Rattle.calls.specs.Views.{model_side};
ghost use Rattle.receiver_state.specs.Report.{counters_in, incoming_numbers, clock_words};
ghost use Rattle.playback_parts.specs.Parts.{TextPut};

use calls::Side;
use receiver_state::report::{Report, SoundReport};

// A channel's line.
#[tactic(auto, unfolding(model::specs::Replay::channel_line))]
pub fn put_sound(text: &mut [u8], side: Side, s: SoundReport) -> usize
    requires { 170 ≤ length text.old }
    ensures { TextPut (channel_line (model_side side) (counters_in s)) text.old text.new result }
{
    let line = lines::put_line(
        text,
        side.letter(),
        &[
            s.received,
            s.inserted,
            s.concealed,
            s.late,
            s.overflow,
            s.invalid_size,
            s.resyncs,
            s.filled,
        ],
    );
    line.unwrap()
}

// The line of the streams' counts.
pub fn put_incoming(text: &mut [u8], r: Report) -> usize
    requires { 170 ≤ length text.old }
    ensures { TextPut (line 73 (map decimal (incoming_numbers r))) text.old text.new result }
{
    let line = lines::put_line(
        text,
        b'I',
        &[
            r.incoming,
            r.audio.packets,
            r.waterfall.packets,
            r.audio.dropped,
            r.waterfall.dropped,
            r.audio.late,
            r.waterfall.late,
        ],
    );
    line.unwrap()
}

// The clock's line.
#[tactic(auto, unfolding(lines::specs::Lines::clock_text))]
pub fn put_times(text: &mut [u8], r: Report) -> usize
    requires { 170 ≤ length text.old }
    ensures { TextPut (line 67 (clock_words r)) text.old text.new result }
{
    lines::put_clock(text, r.timing, r.one_way).unwrap()
}
