// Mathematics that the crates share, in specs/ and proofs/: no function.

#![tactic(auto)]
