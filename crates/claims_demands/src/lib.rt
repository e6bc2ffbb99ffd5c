// Demands 1, 2 and 3 as statements, and their proofs. There is no code in this crate.

#![tactic(auto)]
