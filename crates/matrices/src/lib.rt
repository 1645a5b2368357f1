// The parity check matrices as the standards describe them, and what follows from their tables, in specs/ and proofs/: no function.

#![tactic(auto)]
