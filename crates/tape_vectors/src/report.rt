// Lines of output, and how many of them were as expected.
use std::fmt;
use std::fmt::Display;
use tally::Tally;
use tape::BadWord;

// The tape that is written, read and damaged, and what was seen so far. A line that cannot be written is left out, and changes
// no count.
#[derive(Clone, Copy)]
pub struct Bench {
    pub rt: HostRuntime,
    pub tape: [u8; 256],
    pub tally: Tally,
}

// The verdict on a tape.
pub type Verdict = Result<(), BadWord>;

// The verdict on a tape whose first bad word stands at a place.
pub fn bad(place: usize) -> Verdict {
    Err(BadWord { place })
}

// A verdict as a line has it: refusal 11 with its place.
#[derive(Clone, Copy)]
struct Shown(Verdict);

impl Display for Shown {
    fn fmt<W: fmt::Write>(&self, f: &mut fmt::Formatter<W>) -> fmt::Result {
        match self.0 {
            Ok(()) => write!(f, "accepted"),
            Err(bad) => write!(f, "11 {}", bad.place),
        }
    }
}

impl Bench {
    pub fn new(rt: HostRuntime) -> Bench {
        Bench {
            rt,
            tape: [0; 256],
            tally: Tally::default(),
        }
    }

    // A vector's line.
    pub fn counted<L: Display + Drop>(&mut self, line: L, equal: bool) {
        let end = if equal { "" } else { " NOT EQUAL" };
        let _ = println!(self.rt; "{line}{end}");
        self.tally.count(equal);
    }

    // What was found against what was expected.
    pub fn compared<L: Display + Drop>(&mut self, label: L, found: Verdict, expected: Verdict) {
        self.counted(
            format_args!("{label}: {}, expected {}", Shown(found), Shown(expected)),
            found == expected,
        );
    }

    // A number that was found against the one that was expected.
    pub fn numbers(&mut self, label: &str, found: u64, expected: u64) {
        self.counted(
            format_args!("{label}: {found}, expected {expected}"),
            found == expected,
        );
    }

    pub fn sum_up(self) {
        let tally = self.tally;
        let differ = format_args!("{} of {} vectors equal", tally.equal(), tally.seen);
        let _ = println!(self.rt; "{}", tally.sum(differ));
    }
}
