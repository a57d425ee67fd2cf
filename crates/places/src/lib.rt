// Where a refusal is told: definitions in specs/, claims and their proofs in proofs/. No code.
#![tactic(auto)]
