// A line of output for each session, and how many there were. What cannot be written is left out, and changes no count.
use crate::compare::Difference;
use calls::Side;

#[derive(Clone, Copy)]
pub struct Progress {
    rt: HostRuntime,
    // of the input
    line: u64,
    // sessions that were begun. (No `Tally`, which would count a session with its verdict, at its end: a difference before the first
    // name would be lost.)
    sessions: u64,
    // sessions that are not as expected
    wrong: u64,
    // the first difference of this session, which was told
    found: Result<(), Difference>,
}

impl Progress {
    pub(crate) fn start(rt: HostRuntime, side: Side) -> Progress {
        let _ = println!(rt; "channel {side}");
        Progress {
            rt,
            line: 0,
            sessions: 0,
            wrong: 0,
            found: Ok(()),
        }
    }

    pub(crate) fn next_line(&mut self) {
        self.line = self.line.wrapping_add(1);
    }

    // The rest of a session's line.
    fn close(&self) {
        if self.sessions != 0 && self.found.is_ok() {
            let _ = println!(self.rt; "ok");
        }
    }

    // A new session, by its name, which need not be text.
    pub(crate) fn name(&mut self, line: &[u8]) {
        let Some(name) = line.get(2..) else {
            return;
        };
        self.close();
        let _ = self.rt.write_all(name);
        let _ = print!(self.rt; ": ");
        self.sessions = self.sessions.wrapping_add(1);
        self.found = Ok(());
    }

    // The first difference of a session is told.
    pub(crate) fn note(&mut self, found: Result<(), Difference>) {
        if let (Ok(()), Err(d)) = (self.found, found) {
            let _ = println!(self.rt;
                "DIFFERS in line {}, word {}: {:x}, expected {:x}",
                self.line, d.word, d.found, d.expected,
            );
            self.wrong = self.wrong.wrapping_add(1);
            self.found = found;
        }
    }

    pub(crate) fn sum_up(self) {
        self.close();
        let Progress {
            rt,
            sessions,
            wrong,
            ..
        } = self;
        let _ = if wrong == 0 {
            println!(rt; "all {sessions} sessions as expected")
        } else {
            println!(rt; "{wrong} of {sessions} sessions differ")
        };
    }
}
