// The numbers that a session is closed with. They are read from any state.
ghost use Rattle.std.specs.Prelude.{◌≡◌};
ghost use Rattle.receiver_state.specs.Report.{sound_in, report_of};

use crate::Receiver;
use audio_metrics::ClockTiming;
use jitter_buffer::JitterBuffer;
use udp::StreamCounts;

// A channel's packets since setup or its last reset, and the samples that the player made up.
#[derive(Clone, Copy)]
pub struct SoundReport {
    pub received: u64,
    pub inserted: u64,
    pub concealed: u64,
    pub late: u64,
    pub overflow: u64,
    pub invalid_size: u64,
    pub resyncs: u64,
    pub filled: u64,
}

#[derive(Clone, Copy)]
pub struct Report {
    pub a: SoundReport,
    pub b: SoundReport,
    pub incoming: u64,
    // Streams 1 and 2.
    pub audio: StreamCounts,
    pub waterfall: StreamCounts,
    pub timing: Option<ClockTiming>,
    pub one_way: Option<i64>,
}

// Of a channel's jitter buffer.
impl From<JitterBuffer> for SoundReport {
    ghost from_gives = { λ j sound. sound ≡ sound_in j };

    fn from(j: JitterBuffer) -> SoundReport {
        SoundReport {
            received: j.packets_received,
            inserted: j.packets_inserted,
            concealed: j.packets_missing_concealed,
            late: j.packets_dropped_late,
            overflow: j.packets_dropped_overflow,
            invalid_size: j.packets_dropped_invalid_size,
            resyncs: j.resync_count,
            filled: j.filled,
        }
    }
}

pub fn report_of(r: Receiver) -> Report
    ensures { result ≡ report_of r }
{
    Report {
        a: r.a.jitter.into(),
        b: r.b.jitter.into(),
        incoming: r.incoming,
        audio: r.audio,
        waterfall: r.waterfall,
        timing: r.clock.timing,
        one_way: r.clock.one_way,
    }
}
