// A session's line, and how many sessions and calls were run. A line that cannot be written is left out, and changes no count.
use crate::compare::{Difference, refused_by};
use calls::{Refusal, Side};
use receiver_state::Receiver;
use std::fmt;
use tally::Tally;

#[derive(Clone, Copy)]
pub struct Bench {
    rt: HostRuntime,
    sessions: Tally,
    // Of the sessions that are equal.
    calls: u64,
}

// The channel and its call that differs.
#[derive(Clone, Copy)]
pub struct Failed {
    pub side: Side,
    pub call: u64,
    pub difference: Difference,
}

// The end of n calls of a channel: so many calls equal, or the first difference.
pub fn ended_as(side: Side, n: u64, last: Result<(), Difference>) -> Result<u64, Failed> {
    last.map_err(|difference| Failed {
        side,
        call: n,
        difference,
    })?;
    Ok(n)
}

// The receiver of a setup that must be accepted.
pub fn begun(side: Side, answer: Result<Receiver, Refusal>) -> Result<Receiver, Failed> {
    answer.map_err(|why| Failed {
        side,
        call: 0,
        difference: refused_by(Some(why)),
    })
}

// The calls of both, or the first difference.
pub fn in_turn(first: Result<u64, Failed>, second: Result<u64, Failed>) -> Result<u64, Failed> {
    let m = first?;
    let n = second?;
    Ok(m.wrapping_add(n))
}

impl fmt::Display for Failed {
    fn fmt<W: fmt::Write>(&self, f: &mut fmt::Formatter<W>) -> fmt::Result {
        let d = self.difference;
        write!(f, "{} at call {},{:>12}", self.side, self.call, d.what)?;
        if let Some(place) = d.place {
            write!(f, " {place}")?;
        }
        write!(f, ": {}, expected {}", d.found, d.expected)
    }
}

impl Bench {
    pub fn new(rt: HostRuntime) -> Bench {
        Bench {
            rt,
            sessions: Tally::default(),
            calls: 0,
        }
    }

    // A session's line.
    pub fn count(&mut self, name: &str, ended: Result<u64, Failed>) {
        self.sessions.count(ended.is_ok());
        let _ = match ended {
            Ok(calls) => {
                self.calls = self.calls.wrapping_add(calls);
                println!(self.rt; "{name}: ok, {calls} calls")
            }
            Err(failed) => println!(self.rt; "{name}: DIFFERS on {failed}"),
        };
    }

    pub fn sum_up(self) {
        let sessions = self.sessions;
        let _ = println!(self.rt;
            "{} of {} sessions ok, {} calls",
            sessions.equal(),
            sessions.seen,
            self.calls
        );
    }
}
