// Histories of explicit records: demand 3's provisos can be met, and none of them can be dropped. There is no code in this crate.

#![tactic(auto)]
