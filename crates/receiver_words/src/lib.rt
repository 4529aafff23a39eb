// A receiver in 90 words of 64 bits, and its answers in four, for callers in other languages:
//
//   words    hold
//    0..6    packet, target, max, bins, width, height
//    6, 7    accepted calls, datagrams with a valid header
//    8..13   stream 1: packets, dropped, late, whether there was a last sequence, and that
//   13..18   stream 2: the same
//   18..47   channel A: its jitter buffer in 14 words, its screen in 15
//   47..76   channel B: the same
//   76..90   the clock, as in audio_metrics_words
//
//   a jitter buffer: the largest amount, whether it has started, next, the waiting packets, the queued samples, the run,
//   the seven counters in the struct's order, filled
//   a screen: whether there is a row, its number, total, filled bins, whether it is done; the lengths of the spectrum and
//   of smoothing; adaptive; top, range, zoom, smoothing; the estimates of top, floor and range
//
// A float stands by its bit pattern, in the low half of its word. A flag of 0 says that what follows it is absent.
#![tactic(auto)]

mod clock;
pub mod state;
mod words;
