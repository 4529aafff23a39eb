// What a replay prints, to standard output.
use playback_opening::NotBegun;
use playback_opening::limits::begin_limited;
use playback_parts::{Form, Playback};
use playback_pieces::{Stop, pieces};
use std::io;
use tape::{Call, Placed};

// What is lent to a replay but for the samples. (No const parameters: the areas of the other programs have samples too.)
#[derive(Drop)]
pub struct Areas {
    pub fs: [f32; 16384],
    pub us: [u32; 16384],
    pub text: [u8; 8192],
}

// Pieces as long as they come: as many as the text has room for, written at once. The answer is where the replay is then. (Not one
// function with `playback_files::write_through`: it had to take the writer as a closure, and the writer's error as a type, for one loop.)
fn steps(
    rt: &impl Print,
    begun: Playback,
    tape: &[u8],
    areas: &mut Areas,
    samples: &mut [f32],
) -> io::Result<Playback> {
    let mut playback = begun;
    // No `for` or `while`: each turn's own pieces say whether there are more.
    loop {
        let gathered = pieces(
            playback,
            &mut areas.fs,
            &mut areas.us,
            tape,
            None,
            samples,
            &mut areas.text,
            Form::Full,
        );
        rt.write_all(&areas.text[..gathered.bytes])?;
        playback = gathered.playback;
        match gathered.stop {
            Stop::Full if 0 < gathered.bytes => {}
            _ => return Ok(playback),
        }
    }
}

// The rest of a replay in which a play asks for many samples.
fn with_many_samples(
    rt: &impl Print,
    w: Playback,
    tape: &[u8],
    areas: &mut Areas,
) -> io::Result<()> {
    let mut samples = [0.0f32; 65535];
    steps(rt, w, tape, areas, &mut samples)?;
    Ok(())
}

// The samples that the call at a place asks for.
fn asked_at(tape: &[u8], place: usize) -> usize {
    match tape::reader::call_at(tape, place) {
        Ok(
            Some(
                Placed {
                    call: Call::Play { samples, .. },
                    ..
                },
            ),
        ) => samples as usize,
        _ => 0,
    }
}

// The rest of a replay whose next call asks for so many samples. Most plays ask for few, and memory that is not touched
// costs nothing: those for many are laid out when such a play comes. (A function that calls itself takes no large memory
// into its own.)
fn play(
    rt: &impl Print,
    w: Playback,
    asked: usize,
    tape: &[u8],
    areas: &mut Areas,
) -> io::Result<()> {
    if 1024 < asked {
        return with_many_samples(rt, w, tape, areas);
    }
    let mut samples = [0.0f32; 1024];
    let left = steps(rt, w, tape, areas, &mut samples)?;
    let more = asked_at(tape, left.place);
    if 1024 < more {
        return play(rt, left, more, tape, areas);
    }
    Ok(())
}

pub fn print(rt: &impl Print, tape: &[u8], areas: &mut Areas) -> io::Result<()> {
    match begin_limited(&areas.fs, &mut areas.us, tape, &mut areas.text) {
        Err(NotBegun::NoRoom) => Ok(()),
        Err(NotBegun::Refused(n)) => {
            let text: &[u8] = &areas.text;
            rt.write_all(&text[..n])
        }
        Ok(w) => play(rt, w, 0, tape, areas),
    }
}
