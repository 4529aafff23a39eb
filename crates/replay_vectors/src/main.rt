// Replays the tapes on standard input, each with the output that a replay around the original printed for it, and says
// which differ. Of each tape the input has its length and its output's length, in four bytes each with the most significant
// first, then the tape and the output. oracle/replay_list.sh makes it anew.
#![tactic(auto)]

mod compare;
mod records;

use crate::compare::Areas;
use crate::records::{Bench, replay_all};
use tally::Tally;

// Replays the list, with room for what is expected of a tape.
fn replay_list(rt: HostRuntime, expected: &mut [u8; 600000]) {
    let nan: f32 = 0.0 / 0.0;
    let mut tape = [0u8; 65540];
    // Zeros, and then filled where they lie: an array of what is no constant is laid out twice.
    let mut areas = Areas {
        fs: [0.0; 16384],
        us: [0; 16384],
        samples: [0.0; 65535],
        text: io::buffer(),
    };
    areas.fs.fill(nan);
    areas.us.fill(7);
    areas.samples.fill(nan);
    let mut b = Bench {
        rt,
        tally: Tally::default(),
    };
    let read = replay_all(&mut b, &mut tape, expected, &mut areas);
    b.sum_up(read);
}

fn main(rt: HostRuntime) {
    let mut expected = [0u8; 600000];
    replay_list(rt, &mut expected);
}
