// Sets of servers as lists: definitions in specs/, laws in proofs/. The code of the crates above shares these numbers.

#![tactic(auto)]

// The state of a server at work.
// Stays (1): any byte may be lent as a state; refusal 11 is for those other than these two, which an enum couldn't hold.
pub const WORKING: u8 = 1;

// The state of a server in the horizon.
pub const STANDBY: u8 = 2;

// "Working and horizon together hold at most 64."
pub const MOST_SERVERS: usize = 64;
