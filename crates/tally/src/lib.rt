// How many vectors a program has seen, how many of them differ from what was expected, and the line that says so in the end.
#![tactic(auto)]

ghost use Rattle.std.specs.Prelude.{◌≡◌, ◌+◌, ◌-◌, ◌%◌, ◌^◌, true, false};

use std::fmt;
use std::fmt::Display;

// Counts go on from 0 behind the largest u64.
#[derive(Clone, Copy, PartialEq, Eq, Debug, Default)]
pub struct Tally {
    pub seen: u64,
    pub different: u64,
}

impl Tally {
    // One vector more.
    pub fn count(&mut self, equal: bool)
        ensures seen { self.new.seen ≡ (self.old.seen + 1) % 2 ^ 64 }
        ensures equal { equal ≡ true → self.new.different ≡ self.old.different }
        ensures different { equal ≡ false → self.new.different ≡ (self.old.different + 1) % 2 ^ 64 }
    {
        self.seen = self.seen.wrapping_add(1);
        self.different = self.different.wrapping_add(u64::from(!equal));
    }

    // How many were as expected.
    pub fn equal(&self) -> u64
        ensures { (result + self.now.different) % 2 ^ 64 ≡ self.now.seen }
    {
        self.seen.wrapping_sub(self.different)
    }

    // The line that sums up, with what it says where some differ.
    pub fn sum<D: Display + Drop>(self, otherwise: D) -> Sum<D>
        ensures { result ≡ record { tally = self; otherwise = otherwise } }
    {
        Sum {
            tally: self,
            otherwise,
        }
    }
}

// As the line that sums up: where some differ, how many of how many.
impl Display for Tally {
    ghost use Rattle.tally.specs.Sums.{tally_text};

    ghost output = { tally_text };

    fn fmt<W: fmt::Write>(&self, f: &mut fmt::Formatter<W>) -> fmt::Result {
        if self.different == 0 {
            write!(f, "all {} vectors equal", self.seen)
        } else {
            write!(f, "{} of {} vectors differ", self.different, self.seen)
        }
    }
}

// A tally as a line has it: that all vectors are equal, or else what is said where some differ.
#[derive(Drop)]
pub struct Sum<D> {
    tally: Tally,
    otherwise: D,
}

impl<D: Display> Display for Sum<D> {
    ghost use Rattle.tally.specs.Sums.{sum_text};

    ghost output = { λ s. sum_text D.output s };

    fn fmt<W: fmt::Write>(&self, f: &mut fmt::Formatter<W>) -> fmt::Result {
        if self.tally.different == 0 {
            self.tally.fmt(f)
        } else {
            self.otherwise.fmt(f)
        }
    }
}
