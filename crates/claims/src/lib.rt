// What holds of the crates together: definitions and theorems, no code.
#![tactic(auto)]
