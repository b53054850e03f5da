// The vocabulary of the definitions, and laws for the proofs of the other crates; no code.
#![tactic(auto)]
