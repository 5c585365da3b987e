// Tests of all numbers below a limit, and sums over them. There is no code here: definitions that other crates' specs/ use, and
// their laws.
#![tactic(auto)]
