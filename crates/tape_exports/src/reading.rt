// Reading a tape.
ghost use Rattle.tape_exports.specs.Promises.{VerdictHanded, SetupHanded, CallHanded};

use crate::answers::{put_found, put_setup};
use tape::reader;

// The place of the first bad word, or the largest number where the tape is accepted.
#[unsafe(no_mangle)]
pub extern "C" fn tape_check(tape: &[u8]) -> u64
    ensures { VerdictHanded tape.now result }
{
    match reader::check(tape) {
        Ok(()) => u64::MAX,
        Err(bad) => bad.place as u64,
    }
}

// The twelve numbers of the setup, and the largest number; or the place of the first bad word.
#[unsafe(no_mangle)]
pub extern "C" fn tape_setup(tape: &[u8], out: &mut [u64]) -> u64
    ensures { SetupHanded tape.now out.old out.new result }
{
    match reader::setup_of(tape) {
        Ok(x) => {
            put_setup(out, x);
            u64::MAX
        }
        Err(bad) => bad.place as u64,
    }
}

// What stands at a place: kind, place after or bad place, then the fields.
#[unsafe(no_mangle)]
pub extern "C" fn tape_call_at(tape: &[u8], place: usize, out: &mut [u64])
    ensures { CallHanded tape.now place out.old out.new }
{
    put_found(out, reader::call_at(tape, place));
}
