// What is said of a replay: sentences on standard error, and on descriptor 3 one word of what came of it: over, refused, failed
// or unwritten.
use files::Failure;

// File descriptors: the runtime has no handle of the third, and with handles of the first two each function from `main` down would take
// one, and what is told on 3 would stand apart from what is told beside it.
const STDERR_FILENO: i32 = 2;

const STDOUT_FILENO: i32 = 1;

const RESULT_FILENO: i32 = 3;

// Why a tape is not replayed to its end.
#[derive(Clone, Copy)]
pub enum NotPlayed {
    // The arguments are not those of a replay.
    Usage,
    // The file cannot be read.
    Unreadable,
    // It became shorter while it was read.
    Shorter,
    // It changed while it was read.
    Changed,
    // Tape or setup is refused, and its line was printed.
    Refused,
    // Not all could be written.
    Unwritten,
}

impl From<Failure> for NotPlayed {
    fn from(failure: Failure) -> NotPlayed {
        match failure {
            Failure::Shorter => NotPlayed::Shorter,
            Failure::Unreadable => NotPlayed::Unreadable,
        }
    }
}

fn say(sentence: &[u8]) {
    io::write_all(STDERR_FILENO, sentence);
}

fn result(word: &[u8]) -> bool {
    io::write_all(RESULT_FILENO, word)
}

fn failed(sentence: &[u8]) {
    say(sentence);
    result(b"failed\n");
}

// What came of a replay. That not all could be written is told on descriptor 3 alone, where that is read: who reads it can ask whether
// the reader of the output went away, of which nothing is said.
pub fn tell(ended: Result<(), NotPlayed>) {
    match ended {
        Ok(()) => {
            result(b"over\n");
        }
        Err(NotPlayed::Usage) => failed(b"usage: play [--summary] FILE\n"),
        Err(NotPlayed::Unreadable) => failed(b"play: the file cannot be read\n"),
        Err(NotPlayed::Shorter) => failed(b"play: the file became shorter while it was read\n"),
        Err(NotPlayed::Changed) => failed(b"play: the file changed while it was read\n"),
        Err(NotPlayed::Refused) => {
            result(b"refused\n");
        }
        Err(NotPlayed::Unwritten) => {
            if !result(b"unwritten\n") {
                say(b"play: standard output could not be written\n");
            }
        }
    }
}

// Text to standard output, and whether it was written.
pub fn put(text: &[u8]) -> bool {
    io::write_all(STDOUT_FILENO, text)
}
