// A TM frame has one completion, and bit flipping returns it if the frame comes unchanged: in specs/ and proofs/, no function.

#![tactic(auto)]
