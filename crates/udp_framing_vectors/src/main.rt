// Runs outside vectors on udp_framing, and prints for each what was found and whether it is what is expected.
//
// What is expected stands in the source. The times 10, 5, 5, 11 and 0, 2^64 - 1, 2^64 - 1, 1 are worked examples of
// the rules; the other values were written down from a run of the original.
#![tactic(auto)]

mod bench;
mod clock;
mod headers;
mod hex;
mod packets;

fn main(rt: HostRuntime) {
    let mut b = bench::Bench::new(rt);
    clock::run(&mut b);
    headers::run(&mut b);
    packets::run(&mut b);
    b.sum_up();
}
