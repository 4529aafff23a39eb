// What was run so far, with a line for each vector. A line that cannot be written is left out, and changes no count.
use std::fmt::Display;
use tally::Tally;

#[derive(Clone, Copy)]
pub(crate) struct Bench {
    rt: HostRuntime,
    tally: Tally,
}

impl Bench {
    pub(crate) fn new(rt: HostRuntime) -> Bench {
        Bench {
            rt,
            tally: Tally::default(),
        }
    }

    // A vector's line.
    pub(crate) fn count<L: Display + Drop>(&mut self, line: L, same: bool) {
        let verdict = if same { "equal" } else { "DIFFERENT" };
        let _ = println!(self.rt; "{line}: {verdict}");
        self.tally.count(same);
    }

    pub(crate) fn sum_up(self) {
        let tally = self.tally;
        let differ = format_args!(" {} of {} vectors equal", tally.equal(), tally.seen);
        let _ = println!(self.rt; "{}", tally.sum(differ));
    }
}
