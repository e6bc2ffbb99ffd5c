// Server numbers in rising order, and their states, as the roster holds them.
use crate::keys::Stream;
use sets::{STANDBY, WORKING};
use std::fmt;

// Where server numbers come from: each is four bytes of a stream, which spreads them over the whole range, or one more than the last.
#[derive(Clone, Copy)]
pub enum Numbers {
    Spread(Stream),
    Consecutive(u32),
}

impl Numbers {
    // The spread numbers.
    pub(crate) fn spread() -> Numbers {
        Numbers::Spread(Stream::of_servers())
    }

    // The numbers from 1 on.
    pub(crate) fn consecutive() -> Numbers {
        Numbers::Consecutive(0)
    }

    // The next number.
    fn next(&mut self) -> u32 {
        match self {
            Numbers::Spread(stream) => u32::from_be_bytes(stream.bytes()),
            Numbers::Consecutive(last) => {
                *last = last.wrapping_add(1);
                *last
            }
        }
    }

    // The next numbers, as many as there are places, in rising order.
    pub(crate) fn draw(&mut self, servers: &mut [u32]) {
        servers.fill_with(|| self.next());
        servers.sort_unstable();
    }
}

impl fmt::Display for Numbers {
    fn fmt<W: fmt::Write>(&self, f: &mut fmt::Formatter<W>) -> fmt::Result {
        f.write_str(match self {
            Numbers::Spread(_) => "1",
            Numbers::Consecutive(_) => "0",
        })
    }
}

// The servers in the first places work, the others are in the horizon.
pub(crate) fn states(states: &mut [u8], working: usize) {
    let (first, others) = states.split_at_mut(working.min(states.len()));
    first.fill(WORKING);
    others.fill(STANDBY);
}
