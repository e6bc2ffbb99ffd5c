// What a capture comes to, in ten numbers.
use pcap::{HEADER_BYTES, Refusal, Tally};
use pieces::Stop;
use std::io;

// The sums, the refusal's number and the byte where it stands, and a digest of the events. The number is 0 where there is no
// refusal, and 255 where there was no room for all events.
// Stays (1): the refusal is printed as its number, 0 for none, 255 where there was no room for all events.
#[derive(Clone, Copy, PartialEq, Eq)]
pub struct Numbers {
    pub tally: Tally,
    pub refusal: u8,
    pub at: u64,
    pub digest: u64,
}

impl Numbers {
    // The ten numbers, in the order in which they are printed.
    fn all(self) -> [u64; 10] {
        let tally = self.tally;
        [
            tally.read,
            tally.emitted,
            tally.linktype,
            tally.notipv4,
            tally.fragment,
            tally.other,
            tally.short,
            u64::from(self.refusal),
            self.at,
            self.digest,
        ]
    }

    // A digest with all the numbers taken in.
    pub(crate) fn folded(self, from: u64) -> u64 {
        self.all().iter().fold(from, |h, &n| step(h, n))
    }

    // The numbers behind a word, and the line's end.
    pub(crate) fn print(self, output: &impl Print) -> io::Result<()> {
        for n in self.all() {
            inputs::number(output, n)?;
        }
        inputs::text(output, b"\n")
    }
}

// Where a digest begins: FNV-1a's 32 bits.
pub(crate) const OFFSET: u64 = 2166136261;

// What a capture comes to when it is read as a whole.
pub(crate) fn come_to(capture: &[u8], out: &mut [u8]) -> Numbers {
    let done = pieces::fill_events(capture, HEADER_BYTES, pcap::nothing(), out);
    let (refusal, at) = match done.stop {
        Stop::Full => (255, 0),
        Stop::Finished => (0, 0),
        Stop::Refused(refusal) => (
            refusal.number(),
            match refusal {
                Refusal::TruncatedRecord => done.at as u64,
                _ => 0,
            },
        ),
    };
    Numbers {
        tally: done.tally,
        refusal,
        at,
        digest: digest(OFFSET, out, done.filled),
    }
}

// A digest with the first bytes of a buffer taken in.
pub(crate) fn digest(from: u64, out: &[u8], filled: usize) -> u64 {
    let events = &out[..filled.min(out.len())];
    events.iter().fold(from, |h, &x| step(h, u64::from(x)))
}

// A digest with a number taken in.
fn step(h: u64, n: u64) -> u64 {
    (h ^ n) % 4294967296 * 16777619 % 4294967296
}
