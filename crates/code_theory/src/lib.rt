#![tactic(auto)]

// The balanced code of document 01: definitions and claims in specs/, their proofs in proofs/, no code.
