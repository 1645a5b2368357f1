// No code: how many bits that are sent two words of a TM code differ in, by computing. See proofs/.

#![tactic(auto)]
