// A tape's calls, made one after the other on a receiver, and the lines that they print.
#![tactic(auto)]

pub mod acting;
pub mod printing;
