// Scans and moves of lent lists of servers and of their states.

#![tactic(auto)]

ghost use Rattle.std.specs.Prelude.{◌≡◌, ◌≤◌, ◌∷◌, length, take};
ghost use Rattle.lists.specs.Lists.{rising as rising-of, all_stated, found_in, before as Before-of};

use sets::{STANDBY, WORKING};

// Servers, each with its state at the same place of the other list, as a roster holds them.
#[derive(Clone, Copy)]
pub struct Movers<'a> {
    pub servers: &'a [u32],
    pub states: &'a [u8],
}

// Whether servers rise: each above the one before it, the first above 0.
pub fn rising(s: &[u32]) -> bool
    ensures { result ≡ rising-of 0 s.now }
{
    !s.starts_with(&[0]) && s.is_sorted_by(|a, b| a < b)
}

// Whether each state is working or standby. All are read, with no early end: so they go many at a time.
pub fn stated(s: &[u8]) -> bool
    ensures { result ≡ all_stated s.now }
{
    s.iter().fold(
        true,
        |good, &state| good & matches!(state, WORKING | STANDBY),
    )
}

// The place of a server, if it is there.
pub fn place(s: &[u32], server: u32) -> Option<usize>
    ensures { result ≡ found_in server s.now }
{
    s.iter().position(|&held| held == server)
}

// How many servers stand before the place of a new one.
pub fn before(s: &[u32], server: u32) -> usize
    ensures count { result ≡ Before-of server s.now }
    ensures within { result ≤ length s.now }
{
    s.iter().position(|&held| held >= server).unwrap_or(s.len())
}

// Puts one in front; the others move up by one place, and the last drops out.
pub fn push<T: Copy>(s: &mut [T], first: T)
    ensures { s.new ≡ take (length s.old) (first ∷ s.old) }
{
    if let Some(last) = s.len().checked_sub(1) {
        s.copy_within(..last, 1);
        s[0] = first;
    }
}
