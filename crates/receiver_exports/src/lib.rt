// The receiver for programs in other languages. A state is 90 words in a slice that the caller lends, beside the two areas;
// receiver_words says which they are.
#![tactic(auto, unfolding(crate::specs::Exported::words_there))]

mod exports;
