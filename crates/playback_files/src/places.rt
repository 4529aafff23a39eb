// Where a replay is in a file.
ghost use Rattle.std.specs.Prelude.{◌≤◌};

use playback_parts::Playback;
use progress::Progress;

// Where a replay is when a window is read: its place is counted from the tape's word `base`, where the window begins, and is
// among its first.
#[derive(Clone, Copy)]
pub struct Playing {
    pub base: usize,
    pub playback: Playback,
    pub progress: Progress,
    ghost near_front: { playback.place ≤ 13 },
}
