// Moves, copies and fills inside lent slices, of any elements that may be copied.
#![tactic(auto)]

ghost use Rattle.std.specs.Prelude.{◌≡◌, ◌+◌, ◌≤◌, ◌<◌, length, replicate};
ghost use Rattle.model.specs.Bytes.{placed};
ghost use Rattle.areas.specs.Parts.{moved};

use std::mem::size_of_val;

// So many elements go at a time. They go through a local copy: of that the compiler makes one move of memory, which is
// twice as fast as `copy_within`, a loop over the slice itself, whose two parts may overlap.
const FEW: usize = 4096;

// Writes the n elements from `from` again from `to` on, all read before the first is written. They go through the local copy
// where they are 64 KB at most: the elements of a type parameter could be of any size.
// A range to read and one to write of the same slice cannot both be lent, so places and a number go beside it, in each move.
fn move_few<T: Copy>(a: &mut [T], from: usize, to: usize, n: usize)
    requires { (0 < n) × (n ≤ 4096) × (from + n ≤ length a.old) × (to + n ≤ length a.old) }
    ensures { a.new ≡ moved from to n a.old }
{
    if size_of_val(&a[from..from + n]) <= 65536 {
        let mut few = [a[from]; FEW];
        let kept = &mut few[..n];
        kept.copy_from_slice(&a[from..from + n]);
        a[to..to + n].copy_from_slice(kept);
    } else {
        a.copy_within(from..from + n, to);
    }
}

// Writes the n elements from `from` again from `to` on, which is not above it.
#[tactic(auto, using(model::proofs::PlacedLaws::none_placed, crate::proofs::Placed::some_of, crate::proofs::Placed::move_down_further))]
pub fn move_down<T: Copy>(a: &mut [T], from: usize, to: usize, n: usize)
    requires { (to ≤ from) × (from + n ≤ length a.old) }
    ensures { a.new ≡ moved from to n a.old }
{
    for i in (0..n).step_by(FEW) {
        move_few(a, from + i, to + i, FEW.min(n - i));
    }
}

// Writes the n elements from `from` again from `to` on, which is not below it: the last ones first.
pub fn move_up<T: Copy>(a: &mut [T], from: usize, to: usize, n: usize)
    requires { (from ≤ to) × (to + n ≤ length a.old) }
    ensures { a.new ≡ moved from to n a.old }
{
    let mut left = n;
    // No `for` over the runs' numbers, from the last one on: the compiler then fills the local copy before each run, and a row of
    // 64 bins takes twice as long (measured).
    while 0 < left {
        let few = FEW.min(left);
        left -= few;
        move_few(a, from + left, to + left, few);
    }
}

// Writes x at the n places from `at` on. (The library's `fill` asks that x's clone is x and cannot fail, which `T: Copy` does not say; at f32
// and u32 it does, and then each of five callers would say by a law of its own what stands here in a clause.)
#[tactic(auto, using(crate::proofs::PutBack::all_put))]
pub fn fill<T: Copy>(a: &mut [T], at: usize, n: usize, x: T)
    requires { at + n ≤ length a.old }
    ensures { a.new ≡ placed at (replicate n x) a.old }
{
    for y in a[at..at + n].iter_mut() {
        *y = x;
    }
}
