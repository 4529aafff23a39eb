// Definitions and proofs only: the claim on every list of calls.

#![tactic(auto)]
