// No code: laws on tests, runs of numbers and integers that several crates' proofs cite.
#![tactic(auto)]
