// A receiver in words, and its answers.
ghost use Rattle.std.specs.Prelude.{◌≡◌, ◌≤◌, length};
ghost use Rattle.std.proofs.lemmas.List.Edits.{sets};
ghost use Rattle.receiver_words.specs.State.{channel_read, receiver_at, receiver_words, answer_words, state_left, setup_words, setup_left};

use crate::clock::clock_from;
use crate::words::{
    buffer_from, buffer_words, count_words, counts_from, screen_from, screen_words, sizes_from,
};
use audio_metrics_words::to_words;
use channel::Channel;
use numbers::put;
use receiver_state::{Answer, Receiver};

#[tactic(auto, using(numbers::proofs::Stored::rest_is), unfolding(crate::specs::State::channel_read))]
fn channel_from(w: &[u64]) -> Channel
    requires { 29 ≤ length w.now }
    ensures { result ≡ channel_read w.now }
{
    Channel {
        jitter: buffer_from(w),
        screen: screen_from(&w[14..]),
    }
}

// The receiver that the words are.
pub fn receiver_at(w: &[u64]) -> Receiver
    requires { 90 ≤ length w.now }
    ensures { result ≡ receiver_at w.now }
{
    Receiver {
        sizes: sizes_from(w),
        calls: w[6],
        incoming: w[7],
        audio: counts_from(&w[8..]),
        waterfall: counts_from(&w[13..]),
        a: channel_from(&w[18..]),
        b: channel_from(&w[47..]),
        clock: clock_from(&w[76..]),
    }
}

// The words behind the 90th stay as they are.
fn write_receiver(w: &mut [u64], r: Receiver)
    requires { 90 ≤ length w.old }
    ensures { w.new ≡ sets w.old 0 (receiver_words r) }
{
    put(w, 0, &r.sizes.numbers());
    put(w, 6, &[r.calls, r.incoming]);
    put(w, 8, &count_words(r.audio));
    put(w, 13, &count_words(r.waterfall));
    put(w, 18, &buffer_words(r.a.jitter));
    put(w, 32, &screen_words(r.a.screen));
    put(w, 47, &buffer_words(r.b.jitter));
    put(w, 61, &screen_words(r.b.screen));
    put(w, 76, &to_words(r.clock));
}

fn answer_words(answer: Result<Answer, u32>) -> [u64; 4]
    ensures { result ≡ answer_words answer }
{
    match answer {
        Err(number) => [0, number as u64, 0, 0],
        Ok(Answer::Accepted) => [1, 0, 0, 0],
        Ok(Answer::Played(p)) => {
            let [taken, dropped, short] = p.words();
            [2, taken, dropped, short]
        }
        Ok(Answer::NoRow) => [3, 0, 0, 0],
        Ok(Answer::Row(n)) => [4, n as u64, 0, 0],
    }
}

// What a call left and answered, in words. A refusal comes by its number, which may be any, and leaves the state's as they were.
#[tactic(auto, unfolding(crate::specs::State::state_left))]
pub fn leave(state: &mut [u64], answer: &mut [u64], receiver: Receiver, said: Result<Answer, u32>)
    requires { (90 ≤ length state.old) × (4 ≤ length answer.old) }
    ensures { (state.new ≡ state_left receiver said state.old) × (answer.new ≡ sets answer.old 0 (answer_words said)) }
{
    put(answer, 0, &answer_words(said));
    if said.is_ok() {
        write_receiver(state, receiver);
    }
}

// The same of setup.
pub fn leave_setup(state: &mut [u64], answer: &mut [u64], s: Result<Receiver, u32>)
    requires { (90 ≤ length state.old) × (4 ≤ length answer.old) }
    ensures { (state.new ≡ setup_left s state.old) × (answer.new ≡ sets answer.old 0 (setup_words s)) }
{
    put(answer, 0, &answer_words(s.map(|_| Answer::Accepted)));
    if let Ok(r) = s {
        write_receiver(state, r);
    }
}
