// Writing at a place of a target. Where the answer is a refusal, the target is as it was. Callers in other languages hand over
// plain numbers, one by one.
ghost use Rattle.std.specs.Prelude.{◌≡◌};
ghost use Rattle.model.specs.Receiver.{datagram, play, reset, set, probe, one_way, depth, transmit_depth};
ghost use Rattle.model.specs.Tape.{put_setup, put_call, put_end};
ghost use Rattle.calls.specs.Views.{model_side, model_settings, model_counts, model_setup};
ghost use Rattle.calls.specs.Sides.{side_named};
ghost use Rattle.tape_exports.specs.Numbers.{put_number};
ghost use Rattle.tape_exports.specs.Promises.{PutHanded};

use calls::{DepthCounts, Estimates, OneWayTimes, ProbeTimes, Refusal, Settings, Side, Sizes};
use tape::Setup;
use tape_writer::PutError;

// The place after, or the largest number less the refusal's number.
fn answer(p: Result<usize, PutError>) -> u64
    ensures { result ≡ put_number p }
{
    match p {
        Ok(next) => next as u64,
        Err(why) => u64::MAX - u64::from(Refusal::from(why).number()),
    }
}

#[unsafe(no_mangle)]
pub extern "C" fn tape_put_datagram(target: &mut [u8], place: usize, bytes: &[u8]) -> u64
    ensures { PutHanded (put_call place (datagram bytes.now) target.old) target.old target.new result }
{
    answer(tape_writer::put_datagram(target, place, bytes))
}

#[unsafe(no_mangle)]
pub extern "C" fn tape_put_play(target: &mut [u8], place: usize, side: u64, samples: usize) -> u64
    ensures { PutHanded (put_call place (play (model_side (side_named side)) samples) target.old) target.old target.new result }
{
    answer(tape_writer::put_play(target, place, Side::from_number(side), samples))
}

#[unsafe(no_mangle)]
pub extern "C" fn tape_put_reset(target: &mut [u8], place: usize, side: u64) -> u64
    ensures { PutHanded (put_call place (reset (model_side (side_named side))) target.old) target.old target.new result }
{
    answer(tape_writer::put_reset(target, place, Side::from_number(side)))
}

#[unsafe(no_mangle)]
pub extern "C" fn tape_put_set(
    target: &mut [u8],
    place: usize,
    side: u64,
    adaptive: bool,
    top: u32,
    range: u32,
    zoom: u32,
    smoothing: u32,
) -> u64
    ensures { PutHanded (put_call place (set (model_side (side_named side)) (model_settings (record { adaptive = «adaptive»; top = «top»; range = «range»; zoom = «zoom»; smoothing = «smoothing» }))) target.old) target.old target.new result }
{
    let x = Settings {
        adaptive,
        top,
        range,
        zoom,
        smoothing,
    };
    answer(tape_writer::put_set(target, place, Side::from_number(side), x))
}

#[unsafe(no_mangle)]
pub extern "C" fn tape_put_probe(
    target: &mut [u8],
    place: usize,
    t1: u64,
    t2: u64,
    t3: u64,
    t4: u64,
) -> u64
    ensures { PutHanded (put_call place (probe t1 t2 t3 t4) target.old) target.old target.new result }
{
    answer(tape_writer::put_probe(target, place, ProbeTimes { t1, t2, t3, t4 }))
}

#[unsafe(no_mangle)]
pub extern "C" fn tape_put_one_way(target: &mut [u8], place: usize, receive: u64, send: u64) -> u64
    ensures { PutHanded (put_call place (one_way receive send) target.old) target.old target.new result }
{
    answer(tape_writer::put_one_way(target, place, OneWayTimes { receive, send }))
}

#[unsafe(no_mangle)]
pub extern "C" fn tape_put_depth(
    target: &mut [u8],
    place: usize,
    samples: usize,
    conceals: u64,
    late: u64,
    overflow: u64,
    resyncs: u64,
) -> u64
    ensures { PutHanded (put_call place (depth samples (model_counts (record { conceals = «conceals»; late = «late»; overflow = «overflow»; resyncs = «resyncs» }))) target.old) target.old target.new result }
{
    let k = DepthCounts {
        conceals,
        late,
        overflow,
        resyncs,
    };
    answer(tape_writer::put_depth(target, place, samples, k))
}

#[unsafe(no_mangle)]
pub extern "C" fn tape_put_transmit_depth(target: &mut [u8], place: usize, samples: usize) -> u64
    ensures { PutHanded (put_call place (transmit_depth samples) target.old) target.old target.new result }
{
    answer(tape_writer::put_transmit_depth(target, place, samples))
}

#[unsafe(no_mangle)]
pub extern "C" fn tape_put_end(target: &mut [u8], place: usize) -> u64
    ensures { PutHanded (put_end place target.old) target.old target.new result }
{
    answer(tape_writer::put_end(target, place))
}

#[unsafe(no_mangle)]
pub extern "C" fn tape_put_setup(
    target: &mut [u8],
    place: usize,
    packet: usize,
    queue_target: usize,
    max: usize,
    bins: usize,
    width: usize,
    height: usize,
    a1: u32,
    a2: u32,
    a3: u32,
    b1: u32,
    b2: u32,
    b3: u32,
) -> u64
    ensures { PutHanded (put_setup place (model_setup (record { packet = «packet»; target = queue_target; max = «max»; bins = «bins»; width = «width»; height = «height» }) (record { top = a1; floor = a2; range = a3 }) (record { top = b1; floor = b2; range = b3 })) target.old) target.old target.new result }
{
    let x = Setup {
        sizes: Sizes {
            packet,
            target: queue_target,
            max,
            bins,
            width,
            height,
        },
        a: Estimates {
            top: a1,
            floor: a2,
            range: a3,
        },
        b: Estimates {
            top: b1,
            floor: b2,
            range: b3,
        },
    };
    answer(tape_writer::put_setup(target, place, x))
}
