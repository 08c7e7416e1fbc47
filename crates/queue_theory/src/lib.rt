#![tactic(auto)]

// The queue in lent bytes (01: The sheet): definitions and claims in specs/, their proofs in proofs/, no code.
