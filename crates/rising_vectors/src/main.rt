// Holds the crates `rising` and `radix` against vectors whose rising order is known: both zeros,
// equal values, reversed and long lists. A float stands by its bit pattern, and a vector's line says what was
// found, what was expected, and whether the two are equal.
#![tactic(auto)]

ghost use Rattle.std.specs.Prelude.{◌≡◌, length};
ghost use Rattle.model.specs.Floats.{finite};
ghost use Rattle.model.specs.Bytes.{all};

use std::fmt;
use tally::Tally;

// The sort that is held against the vectors.
#[derive(Clone, Copy)]
enum Sort {
    Merging,
    Digits,
}

impl fmt::Display for Sort {
    fn fmt<W: fmt::Write>(&self, f: &mut fmt::Formatter<W>) -> fmt::Result {
        match *self {
            Sort::Merging => write!(f, "merging"),
            Sort::Digits => write!(f, "digits"),
        }
    }
}

// Values as a line has them: a space and the pattern of each.
#[derive(Clone, Copy)]
struct Patterns<'a>(&'a [f32]);

impl fmt::Display for Patterns<'_> {
    fn fmt<W: fmt::Write>(&self, f: &mut fmt::Formatter<W>) -> fmt::Result {
        for x in self.0 {
            write!(f, " {:08x}", floats::to_bits(*x))?;
        }
        Ok(())
    }
}

// What was seen so far, and the sort that comes next. A line that cannot be written is left out, and changes no count.
#[derive(Clone, Copy)]
struct Bench {
    rt: HostRuntime,
    tally: Tally,
    sort: Sort,
}

fn all_finite(values: &[f32]) -> bool
    ensures { result ≡ all finite values.now }
{
    values.iter().all(|x| floats::is_finite(*x))
}

// Sorts what may be sorted, and says whether it did. (No closure for the sort: it would stand, with its bound and its `requires`,
// in each of the eight functions from `main` to here, which pass on a `Bench` now.)
fn sorted(sort: Sort, values: &mut [f32], spare: &mut [f32]) -> bool {
    if spare.len() < values.len() {
        return false;
    }
    let finite = all_finite(values);
    if finite {
        match sort {
            Sort::Merging => rising::sort_rising(values, spare),
            Sort::Digits => radix::sort_by_digits(values, spare),
        }
    }
    finite
}

// Two zeros of different signs are level, but no same patterns.
fn same_patterns(found: &[f32], expected: &[f32]) -> bool {
    let found = found.iter().map(|x| floats::to_bits(*x));
    found.eq(expected.iter().map(|x| floats::to_bits(*x)))
}

impl Bench {
    // A vector's line, with the values that it shows of what was found and of what was expected.
    fn vector(&mut self, name: &str, found: &[f32], expected: &[f32], equal: bool) {
        let verdict = if equal { "equal" } else { "DIFFERS" };
        let _ = println!(self.rt;
            "{name}:{} expected{} {verdict}",
            Patterns(found),
            Patterns(expected)
        );
        self.tally.count(equal);
    }

    // One short list, sorted and held against its rising order.
    fn short(&mut self, name: &str, values: &mut [f32], expected: &[f32]) {
        let mut spare = [0.0f32; 8];
        let done = sorted(self.sort, values, &mut spare);
        let equal = done && same_patterns(values, expected);
        self.vector(name, values, expected, equal);
    }

    // One long list, sorted and held against the same values in the order that is expected. The line
    // has the first and the last of each.
    fn long(&mut self, name: &str, kind: Kind, run: Run, order: Run) {
        let mut values = room();
        let mut spare = room();
        fill(run, kind, &mut values);
        let done = sorted(self.sort, &mut values, &mut spare);
        fill(order, kind, &mut spare);
        let equal = same_patterns(&values, &spare);
        self.vector(
            name,
            &[values[0], values[65534]],
            &[spare[0], spare[65534]],
            done && values.is_sorted() && equal,
        );
    }

    fn sum_up(self) {
        let tally = self.tally;
        let differ = format_args!("{} vectors differ", tally.different);
        let _ = println!(self.rt; "{}", tally.sum(differ));
    }
}

fn few(b: &mut Bench) {
    b.short("none", &mut [1.0f32; 0], &[1.0f32; 0]);
    b.short("one", &mut [-2.5f32], &[-2.5f32]);
    b.short("two", &mut [3.0f32, -3.0], &[-3.0f32, 3.0]);
}

fn zeros(b: &mut Bench) {
    b.short("-0 and 0 stay", &mut [-0.0f32, 0.0], &[-0.0f32, 0.0]);
    b.short("0 and -0 stay", &mut [0.0f32, -0.0], &[0.0f32, -0.0]);
    let mut mixed = [1.0f32, 0.0, -1.0, -0.0, 0.0, -0.0, -1.0, 0.0];
    let expected = [-1.0f32, -1.0, 0.0, -0.0, 0.0, -0.0, 0.0, 1.0];
    b.short("zeros among others", &mut mixed, &expected);
}

fn equals_and_ends(b: &mut Bench) {
    let mut equal = [2.0f32, 1.0, 2.0, 1.0, 2.0, 1.0, 2.0];
    let expected = [1.0f32, 1.0, 1.0, 2.0, 2.0, 2.0, 2.0];
    b.short("equal values", &mut equal, &expected);
    let mut reversed = [8.0f32, 7.0, 6.0, 5.0, 4.0, 3.0, 2.0, 1.0];
    let expected = [1.0f32, 2.0, 3.0, 4.0, 5.0, 6.0, 7.0, 8.0];
    b.short("reversed", &mut reversed, &expected);
    let mut ends = [3.4028235e38f32, 1.0e-45, -0.0, -1.0e-45, -3.4028235e38];
    let in_order = [-3.4028235e38f32, -1.0e-45, -0.0, 1.0e-45, 3.4028235e38];
    b.short("largest and smallest", &mut ends, &in_order);
}

// A way through the numbers 1 to 65535, in which each comes once.
#[derive(Clone, Copy)]
enum Run {
    Scattered,
    Falling,
    Rising,
}

// What a long list has for a number of its run.
#[derive(Clone, Copy)]
enum Kind {
    // The number.
    Number,
    // Its quarter: 0, 1, 2 or 3, each many times.
    Quarter,
    // A zero of either sign.
    Zero,
}

// The next number of a run. It starts after 0, and would come back to 0 after 65,535 steps.
fn next(run: Run, x: u16) -> u16 {
    match run {
        Run::Scattered => x.wrapping_mul(25173).wrapping_add(13849),
        Run::Falling => x.wrapping_sub(1),
        Run::Rising => x.wrapping_add(1),
    }
}

fn value(kind: Kind, x: u16) -> f32 {
    match kind {
        Kind::Number => f32::from(x),
        Kind::Quarter => f32::from(x / 16384),
        Kind::Zero => { if x < 32768 { 0.0 } else { -0.0 } }
    }
}

fn fill(run: Run, kind: Kind, values: &mut [f32]) {
    let mut x = 0;
    for v in values {
        x = next(run, x);
        *v = value(kind, x);
    }
}

fn room() -> [f32; 65535]
    ensures { 65535 ≡ length result }
{
    [0.0f32; 65535]
}

// Zeros are level, so theirs stays as it is.
fn long_lists(b: &mut Bench) {
    let lists = [
        (
            "65535 numbers, scattered",
            Kind::Number,
            Run::Scattered,
            Run::Rising,
        ),
        (
            "65535 numbers, falling",
            Kind::Number,
            Run::Falling,
            Run::Rising,
        ),
        (
            "65535 numbers, rising",
            Kind::Number,
            Run::Rising,
            Run::Rising,
        ),
        (
            "65535 quarters, scattered",
            Kind::Quarter,
            Run::Scattered,
            Run::Rising,
        ),
        (
            "65535 zeros, scattered",
            Kind::Zero,
            Run::Scattered,
            Run::Scattered,
        ),
    ];
    for (name, kind, run, order) in lists {
        b.long(name, kind, run, order);
    }
}

fn main(rt: HostRuntime) {
    let mut b = Bench {
        rt,
        tally: Tally::default(),
        sort: Sort::Merging,
    };
    for sort in [Sort::Merging, Sort::Digits] {
        b.sort = sort;
        let _ = println!(rt; "by {sort}");
        few(&mut b);
        zeros(&mut b);
        equals_and_ends(&mut b);
        long_lists(&mut b);
    }
    b.sum_up();
}
