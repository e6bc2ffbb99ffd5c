// A capture of any length, in a buffer of one length: the buffer holds the file's header and, behind it, packet records as
// far as they have come. Events go from there into a second buffer.

#![tactic(auto)]

ghost use Rattle.std.specs.Prelude.{◌≡◌};
ghost use Rattle.pieces.specs.Pieces.{stop_said, last_of};

mod feed;
mod fill;
mod keep;

pub use feed::{advance, begin, end};
pub use fill::fill_events;
pub use keep::settle;
use pcap::{Refusal, Tally};

// Why a reader stopped: there is no room for another event, and there may be more; the capture has ended; or it is refused.
#[derive(Clone, Copy, PartialEq, Eq, Debug)]
pub enum Stop {
    Full,
    Finished,
    Refused(Refusal),
}

// What a stream says came last, in the request's numbers: why the reader stopped; or what no reader stops at, since a stream may be anyone's.
// Stays (1): only numbers hold every reason and every refusal that a stream may be lent with.
#[derive(Clone, Copy, PartialEq, Eq, Debug)]
pub enum LastSaid {
    Event,
    Skipped(u8),
    Finished,
    Refused(u8),
}

// Why a reader stopped: it says `Event` where there is no room for another.
impl From<Stop> for LastSaid {
    ghost from_gives = { λ stop said. last_of said ≡ stop_said stop };

    fn from(stop: Stop) -> LastSaid {
        match stop {
            Stop::Full => LastSaid::Event,
            Stop::Finished => LastSaid::Finished,
            Stop::Refused(refusal) => LastSaid::Refused(refusal.number()),
        }
    }
}

// Stays (6): the buffer is the caller's (fixed memory) and has room behind what stands in it, so structs keep how many bytes do.
// Events that were put into a buffer: how many bytes they take, and where and why the reader stopped.
#[derive(Clone, Copy, PartialEq, Eq, Debug)]
pub struct Filled {
    pub stop: Stop,
    pub at: usize,
    pub tally: Tally,
    pub filled: usize,
}

// What is kept of a window: its first `have` bytes. Where that is only the beginning of a packet, the next `pass` bytes of
// the capture are the rest of it, and it is `longer` in the capture than in the window.
#[derive(Clone, Copy, PartialEq, Eq, Debug)]
pub struct Kept {
    pub have: usize,
    pub pass: usize,
    pub longer: usize,
}

// A capture of which pieces have come. The buffer's first `have` bytes are the window; `tally` is what was given so far, and
// `said` what was said last. While a packet that is too long for the buffer comes in, the next `pass` bytes of the
// capture belong to it, and it is `longer` there than in the window. `before` bytes of packet records are done.
#[derive(Clone, Copy, PartialEq, Eq, Debug)]
pub struct Stream {
    pub have: usize,
    pub pass: usize,
    pub longer: usize,
    pub before: u64,
    pub tally: Tally,
    pub said: LastSaid,
}

// A stream after a piece was taken in, and how many bytes of event records stand in the second buffer.
#[derive(Clone, Copy, PartialEq, Eq, Debug)]
pub struct Advanced {
    pub stream: Stream,
    pub filled: usize,
}

// What a capture that has ended is refused by, and the byte where the refusal stands.
#[derive(Clone, Copy, PartialEq, Eq, Debug)]
pub struct Ending {
    pub refusal: Refusal,
    pub at: u64,
}
