// The calls. Each takes the state's 90 words and four words for the answer: 0 and a refusal's number; 1, accepted;
// 2, taken, dropped and short; 3, no row; 4 and the bins of a completed row. false: one of them is too short, and nothing
// was changed. A side of 0 is channel A, any other B. Settings and estimates are bit patterns. C lends state, areas and answer
// with each call, and hands over plain numbers: that is the interface, so no struct has them together.
ghost use Rattle.std.specs.Prelude.{◌≡◌};
ghost use Rattle.model.specs.Receiver.{reset, set, probe, one_way, depth, transmit_depth};
ghost use Rattle.calls.specs.Views.{model_side};
ghost use Rattle.calls.specs.Sides.{side_named};
ghost use Rattle.receiver_exports.specs.Exported.{words_there, Calls, Plays, Takes, NoneWritten, Exported, SetupExported};

use calls::{DepthCounts, Estimates, OneWayTimes, ProbeTimes, Settings, Side, Sizes};
use receiver_setup::setup;
use receiver_state::{Answered, Receiver, numbered};
use receiver_words::state::{leave, leave_setup, receiver_at};

fn words_there(state: &[u64], answer: &[u64]) -> bool
    ensures { result ≡ words_there state.now answer.now }
{
    90 <= state.len() && 4 <= answer.len()
}

// Where the words are there: the call at the receiver that the state's words are, and in words what it leaves and answers.
// (The two calls that write areas stay by themselves: tried, and no fact says that the areas stay where nothing is called. Nor
// do they share a function that lends the areas on to a closure: a play writes a third slice, its output, and a datagram none.)
fn exported<F: FnOnce(Receiver) -> Answered>(state: &mut [u64], answer: &mut [u64], call: F) -> bool
    requires { F.IsAlwaysCallable call }
    ensures { Exported (F.post call) NoneWritten state.old answer.old state.new answer.new result }
{
    if !words_there(state, answer) {
        return false;
    }
    let v = call(receiver_at(state));
    leave(state, answer, v.receiver, numbered(v.answer));
    true
}

// A receiver of these sizes and estimates, over areas that may hold anything. The C interface passes plain numbers, one by one.
#[unsafe(no_mangle)]
pub extern "C" fn receiver_setup(
    state: &mut [u64],
    fs: &[f32],
    us: &mut [u32],
    packet: usize,
    target: usize,
    max: usize,
    bins: usize,
    width: usize,
    height: usize,
    a_top: u32,
    a_floor: u32,
    a_range: u32,
    b_top: u32,
    b_floor: u32,
    b_range: u32,
    answer: &mut [u64],
) -> bool
    ensures { SetupExported (record { packet = packet; target = target; max = max; bins = bins; width = width; height = height }) (record { top = a_top; floor = a_floor; range = a_range }) (record { top = b_top; floor = b_floor; range = b_range }) fs.now us.old us.new state.old answer.old state.new answer.new result }
{
    if !words_there(state, answer) {
        return false;
    }
    let z = Sizes {
        packet,
        target,
        max,
        bins,
        width,
        height,
    };
    let a = Estimates {
        top: a_top,
        floor: a_floor,
        range: a_range,
    };
    let b = Estimates {
        top: b_top,
        floor: b_floor,
        range: b_range,
    };
    leave_setup(state, answer, numbered(setup(z, a, b, fs, us)));
    true
}

// A datagram, as it came. The values of a completed row stand in the f32 area, where its channel's row begins.
#[unsafe(no_mangle)]
pub extern "C" fn receiver_handle_media_packet(
    state: &mut [u64],
    fs: &mut [f32],
    us: &mut [u32],
    bytes: &[u8],
    answer: &mut [u64],
) -> bool
    ensures { Exported (Takes bytes.now fs.old us.old fs.new us.new) ((fs.new ≡ fs.old) × (us.new ≡ us.old)) state.old answer.old state.new answer.new result }
{
    if !words_there(state, answer) {
        return false;
    }
    let v = receiver_datagrams::handle_media_packet(receiver_at(state), fs, us, bytes);
    leave(state, answer, v.receiver, numbered(v.answer));
    true
}

#[unsafe(no_mangle)]
pub extern "C" fn receiver_play(
    state: &mut [u64],
    fs: &mut [f32],
    us: &mut [u32],
    side: u64,
    out: &mut [f32],
    answer: &mut [u64],
) -> bool
    ensures { Exported (Plays (side_named side) fs.old us.old out.old fs.new us.new out.new) ((fs.new ≡ fs.old) × (us.new ≡ us.old) × (out.new ≡ out.old)) state.old answer.old state.new answer.new result }
{
    if !words_there(state, answer) {
        return false;
    }
    let v = receiver::sound::play(receiver_at(state), fs, us, Side::from_number(side), out);
    leave(state, answer, v.receiver, numbered(v.answer));
    true
}

#[unsafe(no_mangle)]
pub extern "C" fn receiver_reset(
    state: &mut [u64],
    fs: &[f32],
    us: &[u32],
    side: u64,
    answer: &mut [u64],
) -> bool
    ensures { Exported (Calls (reset (model_side (side_named side))) fs.now us.now) NoneWritten state.old answer.old state.new answer.new result }
{
    exported(state, answer, |r| {
        receiver::settings::reset(r, fs, us, Side::from_number(side))
    })
}

#[unsafe(no_mangle)]
pub extern "C" fn receiver_set(
    state: &mut [u64],
    fs: &[f32],
    us: &[u32],
    side: u64,
    adaptive: bool,
    top: u32,
    range: u32,
    zoom: u32,
    smoothing: u32,
    answer: &mut [u64],
) -> bool
    ensures { Exported (Calls (set (model_side (side_named side)) (record { adaptive = adaptive; top = top; range = range; zoom = zoom; smoothing = smoothing })) fs.now us.now) NoneWritten state.old answer.old state.new answer.new result }
{
    let settings = Settings {
        adaptive,
        top,
        range,
        zoom,
        smoothing,
    };
    exported(state, answer, |r| {
        receiver::settings::set(r, fs, us, Side::from_number(side), settings)
    })
}

#[unsafe(no_mangle)]
pub extern "C" fn receiver_probe(
    state: &mut [u64],
    fs: &[f32],
    us: &[u32],
    t1: u64,
    t2: u64,
    t3: u64,
    t4: u64,
    answer: &mut [u64],
) -> bool
    ensures { Exported (Calls (probe t1 t2 t3 t4) fs.now us.now) NoneWritten state.old answer.old state.new answer.new result }
{
    exported(state, answer, |r| {
        receiver::clock::probe(r, fs, us, ProbeTimes { t1, t2, t3, t4 })
    })
}

#[unsafe(no_mangle)]
pub extern "C" fn receiver_one_way(
    state: &mut [u64],
    fs: &[f32],
    us: &[u32],
    receive: u64,
    send: u64,
    answer: &mut [u64],
) -> bool
    ensures { Exported (Calls (one_way receive send) fs.now us.now) NoneWritten state.old answer.old state.new answer.new result }
{
    exported(state, answer, |r| {
        receiver::clock::one_way(r, fs, us, OneWayTimes { receive, send })
    })
}

#[unsafe(no_mangle)]
pub extern "C" fn receiver_depth(
    state: &mut [u64],
    fs: &[f32],
    us: &[u32],
    samples: usize,
    conceals: u64,
    late: u64,
    overflow: u64,
    resyncs: u64,
    answer: &mut [u64],
) -> bool
    ensures { Exported (Calls (depth samples (record { conceals = conceals; late = late; overflow = overflow; resyncs = resyncs })) fs.now us.now) NoneWritten state.old answer.old state.new answer.new result }
{
    let counts = DepthCounts {
        conceals,
        late,
        overflow,
        resyncs,
    };
    exported(state, answer, |r| {
        receiver::clock::depth(r, fs, us, samples, counts)
    })
}

#[unsafe(no_mangle)]
pub extern "C" fn receiver_transmit_depth(
    state: &mut [u64],
    fs: &[f32],
    us: &[u32],
    samples: usize,
    answer: &mut [u64],
) -> bool
    ensures { Exported (Calls (transmit_depth samples) fs.now us.now) NoneWritten state.old answer.old state.new answer.new result }
{
    exported(state, answer, |r| {
        receiver::clock::transmit_depth(r, fs, us, samples)
    })
}
