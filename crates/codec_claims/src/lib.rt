#![tactic(auto)]

// What the contracts of encode and decode allow (01: demands 2 and 3): claims in specs/, their proofs in proofs/, no code.
