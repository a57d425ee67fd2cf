// What is wrong with a token that is no integer: definitions in specs/, claims and their proofs in proofs/. No code.
#![tactic(auto)]
