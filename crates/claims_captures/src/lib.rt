// What is proved of reading captures, as statements with their proofs. There is no code in this crate.

#![tactic(auto)]
