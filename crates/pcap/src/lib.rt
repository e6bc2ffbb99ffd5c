// A reader of classic capture files: it stays at its place between packets, and gives one event at a time.

#![tactic(auto)]

ghost use Rattle.std.specs.Prelude.{◌≡◌};
ghost use Rattle.pcap.specs.Captures.{step_at, step_of, number_of, nothing as nothing_yet};

mod file;
mod steps;

use event::EVENT_BYTES;
pub use file::{HEADER_BYTES, RECORD_BYTES, captured_length, low_first};
use frames::Skip;
pub use steps::{refusal_at, step_at};

// Why a capture is refused.
#[derive(Clone, Copy, PartialEq, Eq, Debug)]
pub enum Refusal {
    BadMagic,
    TruncatedHeader,
    TruncatedRecord,
}

impl Refusal {
    // Its number.
    pub fn number(self) -> u8
        ensures { result ≡ number_of self }
    {
        match self {
            Refusal::BadMagic => 20,
            Refusal::TruncatedHeader => 21,
            Refusal::TruncatedRecord => 22,
        }
    }
}

// What a call of the reader says: the event record that it gives; that a packet was skipped, and why; that the capture has
// ended; or why it is refused.
#[derive(Clone, Copy, PartialEq, Eq, Debug)]
pub enum Said {
    Event([u8; EVENT_BYTES]),
    Skipped(Skip),
    Finished,
    Refused(Refusal),
}

// What a reader has given so far: the packets that it read, those that became events, those that were skipped for each
// reason. `due`: the packet at its place has FIN; its kind 1 was given, and its kind 2 is next.
#[derive(Clone, Copy, PartialEq, Eq, Debug)]
pub struct Tally {
    pub due: bool,
    pub read: u64,
    pub emitted: u64,
    pub linktype: u64,
    pub notipv4: u64,
    pub fragment: u64,
    pub other: u64,
    pub short: u64,
}

// The answer to a call: what it says, and where the reader is afterwards.
#[derive(Clone, Copy, PartialEq, Eq, Debug)]
pub struct Step {
    pub said: Said,
    pub at: usize,
    pub tally: Tally,
}

// A reader: the capture's bytes, its place in them, and what it has given so far.
#[derive(Clone, Copy)]
pub struct Reader<'a> {
    pub bytes: &'a [u8],
    pub at: usize,
    pub tally: Tally,
}

// What a reader has given before it begins.
pub fn nothing() -> Tally
    ensures { result ≡ nothing_yet }
{
    Tally {
        due: false,
        read: 0,
        emitted: 0,
        linktype: 0,
        notipv4: 0,
        fragment: 0,
        other: 0,
        short: 0,
    }
}

// A reader at the first packet record of a capture.
pub fn open<'a>(bytes: &'a [u8], tally: Tally) -> Reader<'a>
    ensures { (result.bytes ≡ bytes.entry) × ((result.at ≡ 24) × (result.tally ≡ tally)) }
{
    Reader {
        bytes,
        at: HEADER_BYTES,
        tally,
    }
}

// The next event, or why there is none, and where the reader is then.
pub fn next<'a>(reader: Reader<'a>) -> Step
    ensures { step_of result ≡ step_at reader.entry.bytes.now reader.entry.at reader.entry.tally }
{
    step_at(reader.bytes, reader.at, reader.tally)
}

// The reader at another place of its capture: where a call left it.
pub fn moved<'a>(reader: Reader<'a>, at: usize, tally: Tally) -> Reader<'a>
    ensures { (result.bytes ≡ reader.entry.bytes) × ((result.at ≡ at) × (result.tally ≡ tally)) }
{
    Reader {
        at,
        tally,
        ..reader
    }
}
