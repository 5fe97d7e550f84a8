// The archive of a stream of input, and the register that it is: definitions and their proofs alone.
#![tactic(auto)]
