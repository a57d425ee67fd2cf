// The writer and the reader together: definitions in specs/, claims and their proofs in proofs/. No code.
#![tactic(auto)]
