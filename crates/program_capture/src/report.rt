// The line of counts, in words, on standard error. What writes it answers an error only where nobody reads it any more.
use crate::Failure;
use pcap::{Refusal, Tally};
use pieces::{Ending, Stream};
use std::io;

// The first four bytes of pcapng, and of captures with nanoseconds in either byte order.
const PCAPNG: u32 = 168627466;

const NANOSECONDS: u32 = 2712812621;

const NANOSECONDS_LOW_FIRST: u32 = 1295823521;

// Says how many packets there were, and why some were skipped; then what the capture is refused by, or why nobody knows.
pub(crate) fn say(
    line: &impl Print,
    buffer: &[u8],
    stream: Stream,
    done: Result<(), Failure>,
) -> io::Result<()> {
    sums(line, stream.tally)?;
    match done {
        Ok(()) => refused(line, pieces::end(buffer, stream), first_number(buffer))?,
        Err(Failure::Input) => inputs::text(line, b"; standard input couldn't be read to its end")?,
        Err(_) => inputs::text(line, b"; standard output didn't take all events")?,
    }
    inputs::text(line, b"\n")
}

// The packets read, emitted, and skipped for each reason.
fn sums(line: &impl Print, tally: Tally) -> io::Result<()> {
    count(line, tally.read, b" packets read, ")?;
    count(line, tally.emitted, b" emitted; skipped: ")?;
    count(line, tally.linktype, b" link type, ")?;
    count(line, tally.notipv4, b" not IPv4, ")?;
    count(line, tally.fragment, b" fragment, ")?;
    count(line, tally.other, b" other protocol, ")?;
    count(line, tally.short, b" cut short")
}

// A number and what follows it.
fn count(line: &impl Print, n: u64, behind: &[u8]) -> io::Result<()> {
    inputs::heard(line.print(n))?;
    inputs::text(line, behind)
}

// What a capture is refused by: the number, the byte where it stands, and what it means.
fn refused(line: &impl Print, ending: Option<Ending>, magic: Option<u32>) -> io::Result<()> {
    let Some(Ending { refusal, at }) = ending else {
        return Ok(());
    };
    inputs::text(line, b"; refused by ")?;
    count(line, u64::from(refusal.number()), b" at byte ")?;
    match refusal {
        Refusal::TruncatedRecord => count(line, at, b": truncated packet record"),
        Refusal::TruncatedHeader => count(line, at, b": truncated file header"),
        Refusal::BadMagic => {
            count(line, at, b": bad magic")?;
            format(line, magic)
        }
    }
}

// Names the format of a file that is no classic capture, where it is known, and what makes one of it.
fn format(line: &impl Print, magic: Option<u32>) -> io::Result<()> {
    match magic {
        Some(PCAPNG) => inputs::text(
            line,
            b" (this is pcapng; editcap -F pcap makes a classic capture of it)",
        ),
        Some(NANOSECONDS | NANOSECONDS_LOW_FIRST) => inputs::text(
            line,
            b" (this is a nanosecond capture; editcap -F pcap makes a classic one of it)",
        ),
        _ => Ok(()),
    }
}

// The number that a file's first four bytes spell.
fn first_number(buffer: &[u8]) -> Option<u32> {
    buffer.first_chunk().map(|bytes| u32::from_be_bytes(*bytes))
}
