#![tactic(auto)]

// The line program of document 01 over a stream of bytes: definitions and claims in specs/, their proofs in proofs/, no code.
