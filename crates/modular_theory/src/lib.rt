#![tactic(auto)]

// Arithmetic mod q: definitions in specs/, laws in proofs/, no code.
