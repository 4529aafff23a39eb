// The reader and the writer of the tape for programs in other languages: an answer is a number, and the fields of a call
// go into a slice that the caller lends. What the slice has no room for is left out. No function asks anything of its caller.
#![tactic(auto)]

mod answers;
mod reading;
mod writing;
