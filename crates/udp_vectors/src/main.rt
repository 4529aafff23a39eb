// Runs the sessions on standard input on a receiver, first all on its channel A and then all on B, each with what the
// original showed in it, and prints a line for each: ok, or its first difference. The input says what its lines mean;
// oracle/udp_sessions.sh prints it anew.
#![tactic(auto)]

mod compare;
mod datagram;
mod look;
mod payload;
mod report;
mod session;
mod words;

use crate::report::Progress;
use crate::session::Session;
use crate::words::{Line, word, words_of};
use calls::Side;
use udp_framing::StreamType;

// A datagram of the channel's rows.
fn send_rows(line: Line<'_>, s: &mut Session) {
    let mut bytes = io::large_buffer();
    let n = datagram::put_rows(line, s.side, &mut bytes);
    s.datagram(&bytes[..n], word(line.words, 0));
}

// Headers alone, of two streams, which are counted where their streams are, and complete no row, and the counts after them.
fn send_headers(s: &mut Session, audio: StreamType, rows: StreamType, words: &[u32]) {
    for stream in [audio, rows] {
        let mut bytes = [0u8; 16];
        datagram::put_header(&mut bytes, stream, word(words, 0));
        s.datagram(&bytes, session::NO_ROW);
    }
    let counts = look::counts(s, words);
    s.looked(counts);
}

// One line with words. A sequence is sent on streams 1 and 2, which count it, and then on 3 and 4, which leave the counts.
fn act(line: Line<'_>, s: &mut Session) {
    let words = line.words;
    match line.letter {
        b'Z' => s.begin(words),
        b'D' => s.set(words),
        b'C' | b'L' | b'B' => send_rows(line, s),
        b'Q' => {
            send_headers(s, StreamType::Audio, StreamType::Waterfall, words);
            send_headers(s, StreamType::AudioVfoB, StreamType::WaterfallVfoB, words);
        }
        _ => {
            let found = look::look(line, s);
            s.looked(found);
        }
    }
}

// One line: a name, a comment, or a letter and its words. An empty line is a comment.
fn take_line(s: &mut Session, p: &mut Progress, side: Side, line: &[u8]) {
    p.next_line();
    match line.first() {
        None | Some(b'#') => {}
        Some(b'=') => {
            s.start(side);
            p.name(line);
        }
        Some(letter) => {
            let mut words = [0u32; 512];
            let n = words_of(line, &mut words);
            let words = &words[..n];
            let letter = *letter;
            act(Line { letter, words }, s);
            p.note(s.found);
        }
    }
}

// All lines on both channels, one after the other. (The session is written down here, with zeros, and filled where it lies: what a function makes
// and answers, and an array of what is no constant, is laid out twice.)
fn run(rt: HostRuntime, lines: &[u8]) {
    let mut s = Session {
        side: Side::A,
        receiver: session::no_receiver(),
        fs: [0.0; 458751],
        us: [0; 514],
        found: Ok(()),
    };
    s.fs.fill(0.0 / 0.0);
    s.us.fill(7);
    for side in [Side::A, Side::B] {
        s.start(side);
        let mut p = Progress::start(rt, side);
        for line in lines.split(|b| *b == b'\n') {
            take_line(&mut s, &mut p, side, line);
        }
        p.sum_up();
    }
}

// A read that fails ends the input.
fn main(rt: HostRuntime) {
    let mut text = io::large_buffer();
    let read = input::read_all(&mut rt.stdin(), &mut text);
    let n = read.unwrap_or_else(|failed| failed.bytes);
    run(rt, &text[..n]);
}
