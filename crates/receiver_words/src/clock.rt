// The clock in 14 words, as in audio_metrics_words, from a slice that begins with them.
ghost use Rattle.std.specs.Prelude.{◌≡◌, ◌≤◌, length};
ghost use Rattle.audio_metrics.specs.Views.{clock_of};
ghost use Rattle.audio_metrics_words.specs.Words.{clock_in};

use audio_metrics::AudioMetrics;
use audio_metrics_words::from_words;

#[tactic(auto, unfolding(audio_metrics_words::specs::Words::clock_in))]
pub fn clock_from(w: &[u64]) -> AudioMetrics
    requires { 14 ≤ length w.now }
    ensures { clock_of result ≡ clock_in w.now }
{
    from_words(w.first_chunk().unwrap())
}
