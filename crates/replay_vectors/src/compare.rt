// A replay held against the output that it must have.
use playback::StepError;
use playback::stepping::step;
use playback_opening::NotBegun;
use playback_opening::limits::begin_limited;
use playback_parts::Playback;

// What is lent to a replay: it holds anything, and then what the tape before has left there. (Not one type with that of `play`, by
// const parameters: it would take a library, and four numbers in each program, for six lines.)
#[derive(Drop)]
pub struct Areas {
    pub fs: [f32; 16384],
    pub us: [u32; 16384],
    pub samples: [f32; 65535],
    pub text: [u8; 4096],
}

impl Areas {
    // The first n bytes of the text.
    fn written(&self, n: usize) -> Option<&[u8]> {
        self.text.get(..n)
    }
}

// Whether the steps of a replay print the expected output.
fn steps(
    begun: Playback,
    tape: &[u8],
    expected: &[u8],
    areas: &mut Areas,
) -> Result<bool, StepError> {
    let mut playback = begun;
    let mut rest = expected;
    while let Some(v) = step(
        playback,
        &mut areas.fs,
        &mut areas.us,
        tape,
        &mut areas.samples,
        &mut areas.text,
    )? {
        let written = areas.written(v.bytes);
        let Some(behind) = written.and_then(|piece| rest.strip_prefix(piece)) else {
            return Ok(false);
        };
        rest = behind;
        playback = v.playback;
    }
    Ok(rest.is_empty())
}

// Whether the replay of a tape prints the expected output, to the last byte.
pub fn prints(tape: &[u8], expected: &[u8], areas: &mut Areas) -> bool {
    match begin_limited(&mut areas.fs, &mut areas.us, tape, &mut areas.text) {
        Err(NotBegun::NoRoom) => false,
        Err(NotBegun::Refused(n)) => areas.written(n) == Some(expected),
        Ok(w) => steps(w, tape, expected, areas).unwrap_or(false),
    }
}
