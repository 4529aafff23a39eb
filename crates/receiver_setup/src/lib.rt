// Setup: questions 1, 2 and 5, then both pictures zeroed and a fresh receiver.
#![tactic(auto)]

ghost use Rattle.std.specs.Prelude.{◌≡◌, ◌≤◌, length};
ghost use Rattle.model.specs.Sizes.{word_area};
ghost use Rattle.calls.specs.Views.{sizes_of};
ghost use Rattle.receiver_setup.specs.Promises.{pictures_zeroed, SetupDone};
ghost use Rattle.receiver_setup.specs.Setup.{SetupAsked};

use calls::{Estimates, Refusal, Sizes};
use receiver_state::Receiver;
use receiver_state::asking::{areas_long, both_finite};
use sizes::AllowedSizes;

// Questions 2 and 5, in their order, of sizes for which question 1 is answered with yes: the first that is answered with no,
// if one is. The sizes and both estimates stay three parameters here and below: callers in other languages give them one by
// one, and each question takes a part of them.
fn setup_asked(
    z: AllowedSizes,
    a: Estimates,
    b: Estimates,
    fs: &[f32],
    us: &[u32],
) -> Result<(), Refusal>
    ensures { SetupAsked z.sizes a b fs.now us.now result }
{
    let long = areas_long(z, fs, us);
    let finite = both_finite(a, b);
    if !long {
        return Err(Refusal::NoRoom);
    }
    if !finite {
        return Err(Refusal::NotFinite);
    }
    Ok(())
}

// Both pictures zeroed. The rest of the area stays.
#[tactic(auto, using(channel::proofs::Sections::word_section_is, receiver_state::proofs::StateQuestions::word_area_is, sizes::proofs::Bounds::picture_bound, sizes::proofs::Bounds::most_waiting_bound, sizes::proofs::Bounds::word_section_bound))]
fn zero_pictures(z: AllowedSizes, us: &mut [u32])
    requires { word_area (sizes_of z.sizes) ≤ length us.old }
    ensures { us.new ≡ pictures_zeroed z.sizes us.old }
{
    let start = z.word_section();
    let at = z.most_waiting();
    let n = z.sizes.width * z.sizes.height;
    areas::fill(us, at, n, 0);
    areas::fill(us, start + at, n, 0);
}

// A receiver of these sizes and estimates, over areas that may hold anything; or the first question that was answered
// with no. Only the u32 area is written, and where setup is refused nothing.
pub fn setup(
    z: Sizes,
    a: Estimates,
    b: Estimates,
    fs: &[f32],
    us: &mut [u32],
) -> Result<Receiver, Refusal>
    ensures { SetupDone z a b fs.now us.old result us.new }
{
    let sizes = AllowedSizes::of(z).ok_or(Refusal::Sizes)?;
    setup_asked(sizes, a, b, fs, us)?;
    zero_pictures(sizes, us);
    Ok(Receiver::new(z, a, b))
}
