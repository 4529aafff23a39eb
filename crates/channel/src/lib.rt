// One channel over its sections of the two lent areas: what waits and is queued, and what it shows. Both slices begin
// where the channel's sections begin and may go on behind them.
// Sizes and slices go in one by one: a struct of them would need a clause on each slice's reference in each contract.
#![tactic(auto)]

ghost use Rattle.std.specs.Prelude.{◌≡◌, List, ℕ, ◌≤◌, length, Float};
ghost use Rattle.model.specs.Sizes.{word_section};
ghost use Rattle.calls.specs.declared.Sizes.{Sizes};
ghost use Rattle.calls.specs.Views.{sizes_of};
ghost use Rattle.channel.specs.Promises.{FreshChannel, ChannelAsked, Ready, RowReady, AudioTaken, ChannelPlayed, ResetDone, SettingsTaken, RowTaken};

use calls::{Estimates, PlayedSamples, Settings};
use jitter_buffer::JitterBuffer;
use reassembler::Pushed;
use sizes::AllowedSizes;
use udp::Display;
use udp_packets::Screen;

#[derive(Clone, Copy)]
pub struct Channel {
    pub jitter: JitterBuffer,
    pub screen: Screen,
}

// What a play leaves and answers.
#[derive(Clone, Copy)]
pub struct Played {
    pub channel: Channel,
    pub samples: PlayedSamples,
}

impl Channel {
    // Nothing waits, and nothing is shown; the estimates come with setup.
    pub fn new(estimates: Estimates) -> Self
        ensures { FreshChannel estimates result }
    {
        Channel {
            jitter: JitterBuffer::new(),
            screen: Screen::new(
                floats::from_bits(estimates.top),
                floats::from_bits(estimates.floor),
                floats::from_bits(estimates.range),
            ),
        }
    }

    // Question 3 for one channel: whether a receiver of so many accepted calls could hold it.
    #[tactic(auto, using(crate::proofs::Sections::word_section_is, std::proofs::lemmas::Grind::common_steps))]
    pub fn could_be_held(self, z: AllowedSizes, us: &[u32], calls: u64) -> bool
        requires { word_section (sizes_of z.sizes) ≤ length us.now }
        ensures { ChannelAsked z.sizes self us.now calls result }
    {
        let most = z.most_waiting();
        jitter_asking::could_be_held(self.jitter, z.sizes, &us[..most], calls)
            && self.screen.could_be_held(z.sizes.bins)
    }

    // An audio payload: its samples go to the jitter buffer.
    #[tactic(auto, using(crate::proofs::Sections::float_section_is, crate::proofs::Sections::word_section_is, std::proofs::lemmas::Grind::common_steps))]
    pub fn audio(
        self,
        z: AllowedSizes,
        fs: &mut [f32],
        us: &mut [u32],
        sequence: u32,
        payload: &[u8],
    ) -> Self
        requires { Ready z.sizes self fs.old us.old }
        ensures { AudioTaken z.sizes self fs.old us.old sequence payload.now result fs.new us.new }
    {
        let offsets = z.section_offsets();
        let jitter = udp_packets::handle_audio_packet(
            self.jitter,
            z.sizes,
            &mut fs[..offsets.row],
            &mut us[..offsets.picture],
            sequence,
            payload,
        );
        Channel { jitter, ..self }
    }

    // A play of as many samples as the output has.
    #[tactic(auto, using(crate::proofs::Sections::float_section_is, crate::proofs::Sections::word_section_is, std::proofs::lemmas::Grind::common_steps))]
    pub fn play(self, z: AllowedSizes, fs: &mut [f32], us: &mut [u32], out: &mut [f32]) -> Played
        requires { Ready z.sizes self fs.old us.old × (length out.old ≤ 65535) }
        ensures { ChannelPlayed z.sizes self fs.old us.old out.old result fs.new us.new out.new }
    {
        let offsets = z.section_offsets();
        let popped = jitter_pop::pop_samples(
            self.jitter,
            z.sizes,
            &mut fs[..offsets.row],
            &mut us[..offsets.picture],
            out,
        );
        Played {
            channel: Channel {
                jitter: popped.buffer,
                ..self
            },
            samples: popped.played,
        }
    }

    // Clears the jitter buffer, but for its largest buffered amount. What is shown stays.
    pub fn reset(self) -> Self
        ensures { (z : Sizes) (fs : List Float) (us : List ℕ) → ResetDone z self fs us result }
    {
        Channel {
            jitter: self.jitter.reset(),
            ..self
        }
    }

    // New settings. The estimates stay.
    pub fn set(self, settings: Settings) -> Self
        ensures { (z : Sizes) (fs : List Float) (us : List ℕ) → SettingsTaken z settings self fs us result }
    {
        let display = Display {
            adaptive: settings.adaptive,
            top: floats::from_bits(settings.top),
            range: floats::from_bits(settings.range),
            zoom: floats::from_bits(settings.zoom),
            smoothing: floats::from_bits(settings.smoothing),
            ..self.screen.display
        };
        Channel {
            screen: Screen {
                display,
                ..self.screen
            },
            ..self
        }
    }

    // A waterfall payload: its chunk goes to the row, and a row that it completes is shown. `work` is room for a sort.
    #[tactic(auto, using(crate::proofs::Sections::float_section_is, crate::proofs::Sections::word_section_is, sizes::proofs::Bounds::picture_bound, jitter_buffer::proofs::Places::queue_low))]
    pub fn waterfall(
        self,
        z: AllowedSizes,
        fs: &mut [f32],
        us: &mut [u32],
        work: &mut [f32],
        payload: &[u8],
    ) -> Pushed<Self>
        requires { RowReady z.sizes self fs.old us.old (length work.old) payload.now }
        ensures { RowTaken z.sizes self fs.old us.old payload.now result fs.new us.new }
    {
        let offsets = z.section_offsets();
        let end = offsets.picture + z.sizes.width * z.sizes.height;
        let handled = udp_packets::handle_waterfall_packet(
            self.screen,
            z.sizes,
            &mut fs[offsets.row..],
            work,
            &mut us[offsets.picture..end],
            payload,
        );
        Pushed {
            state: Channel {
                screen: handled.state,
                ..self
            },
            completed: handled.completed,
        }
    }
}
