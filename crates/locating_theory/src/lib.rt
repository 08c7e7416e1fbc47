#![tactic(auto)]

// The position of an error from the syndromes (02, T-09): what it is, and why two candidates are enough. There is no code here.
