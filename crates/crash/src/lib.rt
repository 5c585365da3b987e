// The device as the proofs see it: a map from sector to bytes, what stores leave on it, and what a power cut can leave.
// There is no code here: it is what the promises about cuts say, in one place, for updates and mending.
#![tactic(auto)]
