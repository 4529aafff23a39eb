// What follows from the six sizes of a receiver: whether they are allowed, how many packets may wait, how
// long the lent areas must be, and where the parts of a channel's sections lie.
#![tactic(auto)]

ghost use Rattle.std.specs.Prelude.{◌≡◌, true, false, MatchOption};
ghost use Rattle.model.specs.Sizes.{sizes_allowed, most_waiting, float_section, word_section, float_area, word_area};
ghost use Rattle.calls.specs.Views.{sizes_of};
ghost use Rattle.sizes.specs.View.{offsets_of};

use calls::Sizes;

// Where the parts of a channel's sections start. In the f32 section the waiting samples are at 0; in
// the u32 section the waiting sequences are.
#[derive(Clone, Copy)]
pub struct Offsets {
    pub queue: usize,
    pub row: usize,
    pub spectrum: usize,
    pub smoothing: usize,
    pub picture: usize,
}

// Question 1: whether a receiver may have these sizes.
#[tactic(auto, unfolding(model::specs::Sizes::sizes_allowed))]
pub fn allowed(z: Sizes) -> bool
    ensures { result ≡ sizes_allowed (sizes_of z) }
{
    (1..=4096).contains(&z.packet)
        && (z.packet..=65536).contains(&z.target)
        && (z.target..=131072).contains(&z.max)
        && (1..=65535).contains(&z.bins)
        && (1..=4096).contains(&z.width)
        && (1..=4096).contains(&z.height)
}

// Sizes that a receiver may have: question 1 is answered with yes, by `of`, or what a caller promises says so, and then
// nothing is asked: `AllowedSizes { sizes }`.
#[derive(Clone, Copy)]
pub struct AllowedSizes {
    pub sizes: Sizes,
    pub ghost allowed: { sizes_allowed (sizes_of sizes) ≡ true },
}

impl AllowedSizes {
    // These sizes, if question 1 is answered with yes. (No `TryFrom`: half of the callers want what this answers, and not the refusal.)
    pub fn of(z: Sizes) -> Option<AllowedSizes>
        ensures { MatchOption result (sizes_allowed (sizes_of z) ≡ false) (λ a. (a.sizes ≡ z) × (sizes_allowed (sizes_of z) ≡ true)) }
    {
        if allowed(z) {
            Some(AllowedSizes { sizes: z })
        } else {
            None
        }
    }

    // The most packets that wait: max / packet, rounded up.
    #[tactic(auto, using(model::proofs::SizeLaws::allowed, crate::proofs::Bounds::rounded_up), unfolding(model::specs::Sizes::most_waiting))]
    pub fn most_waiting(self) -> usize
        ensures { result ≡ most_waiting (sizes_of self.sizes) }
    {
        self.sizes.max.div_ceil(self.sizes.packet)
    }

    #[tactic(auto, using(model::proofs::SizeLaws::allowed, crate::proofs::Bounds::waiting_samples_few), unfolding(crate::specs::View::queue_at))]
    pub fn section_offsets(self) -> Offsets
        ensures { result ≡ offsets_of (sizes_of self.sizes) }
    {
        let z = self.sizes;
        let most = self.most_waiting();
        let queue = most * z.packet;
        let row = queue + (z.target + z.packet);
        Offsets {
            queue,
            row,
            spectrum: row + z.bins,
            smoothing: row + 2 * z.bins,
            picture: most,
        }
    }

    // The places of the f32 section of one channel.
    #[tactic(auto, using(model::proofs::SizeLaws::allowed, crate::proofs::Bounds::waiting_samples_few), unfolding(crate::specs::View::queue_at, model::specs::Sizes::float_section))]
    pub fn float_section(self) -> usize
        ensures { result ≡ float_section (sizes_of self.sizes) }
    {
        self.section_offsets().row + 3 * self.sizes.bins
    }

    // The places of the u32 section of one channel.
    #[tactic(auto, using(crate::proofs::Bounds::picture_small, crate::proofs::Bounds::most_waiting_bound), unfolding(model::specs::Sizes::word_section))]
    pub fn word_section(self) -> usize
        ensures { result ≡ word_section (sizes_of self.sizes) }
    {
        let z = self.sizes;
        self.most_waiting() + z.width * z.height
    }

    // The f32 area: both channels' sections, and a work section of bins.
    #[tactic(auto, using(model::proofs::SizeLaws::allowed, crate::proofs::Bounds::float_section_bound), unfolding(model::specs::Sizes::float_area))]
    pub fn float_area(self) -> usize
        ensures { result ≡ float_area (sizes_of self.sizes) }
    {
        let z = self.sizes;
        2 * self.float_section() + z.bins
    }

    // The u32 area: both channels' sections.
    #[tactic(auto, using(crate::proofs::Bounds::word_section_bound), unfolding(model::specs::Sizes::word_area))]
    pub fn word_area(self) -> usize
        ensures { result ≡ word_area (sizes_of self.sizes) }
    {
        2 * self.word_section()
    }
}
