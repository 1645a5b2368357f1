// What holds of sender and receiver together, over the promises of the other crates, in specs/ and proofs/: no function.

#![tactic(auto)]
