// What is refused, with which number: definitions in specs/, claims and their proofs in proofs/. No code.
#![tactic(auto)]
