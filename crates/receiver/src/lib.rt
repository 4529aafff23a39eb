// The receiver's calls but for a datagram, which the crate receiver_datagrams has; receiver_setup has setup. The state
// goes in by value and comes back; the two areas are lent to each call.
// No call asks anything of its caller: every number, slice, area and state is answered, and a refusal changes nothing.
#![tactic(auto)]

pub mod clock;
pub mod settings;
pub mod sound;
