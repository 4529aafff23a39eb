// Runs sessions of sound on each channel of a receiver and holds every number and sample against values from outside:
// what rigflow's jitter_buffer.rs (rustc 1.95.0, x86-64) answered to the same calls, printed and explained by
// oracle/jitter_sessions.sh. What rigflow does not have, `filled` and the refusals, follows the rules in
// docs/RECEIVER.md. A session's line says ok, or the first difference.
#![tactic(auto)]

mod acts;
mod asked;
mod bench;
mod compare;
mod refused;
mod session;
mod sessions;

fn main(rt: HostRuntime) {
    let mut b = bench::Bench::new(rt);
    sessions::all(&mut b);
    refused::all(&mut b);
    b.sum_up();
}
