// Histories of the balancer from a fresh start: definitions in specs/, theorems in proofs/. There is no code in this crate.

#![tactic(auto)]
