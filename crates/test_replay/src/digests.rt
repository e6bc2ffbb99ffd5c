// The rest of a line: the reply, and the digests of what was lent. A digest is FNV-1a 64 over the bytes that the model lays out
// (tests/model/session.py), numbers big-endian.
use crate::given::What;
use answers::ReplyNumbers;
use ring::Entry;
use roster::Roster;
use rules::Reply;
use std::io;
use test_byvalue::Tried;

// What a digest of no bytes is.
const NOTHING: u64 = 14695981039346656037;

// What a digest is multiplied by at each byte, modulo 2^64: 2^40 + 435.
const FACTOR: u64 = 1099511628211;

// What can go into a digest.
trait Digested {
    // A running digest with this behind it.
    fn behind(&self, h: u64) -> u64;
}

impl Digested for u8 {
    fn behind(&self, h: u64) -> u64 {
        (h ^ u64::from(*self)).wrapping_mul(FACTOR)
    }
}

impl Digested for u32 {
    fn behind(&self, h: u64) -> u64 {
        over(h, &self.to_be_bytes())
    }
}

impl Digested for Entry {
    fn behind(&self, h: u64) -> u64 {
        self.track
            .behind(self.server.behind(self.position.behind(h)))
    }
}

impl Digested for Roster {
    // The servers, states, count and settings.
    fn behind(&self, h: u64) -> u64 {
        let named = over(over(h, &self.servers), &self.states);
        let counted = over(named, &(self.held as u64).to_be_bytes());
        let chosen = self.settings.method.behind(counted);
        over(chosen, &self.settings.rows.to_be_bytes())
    }
}

// All of a slice into a running digest.
fn over<T: Digested>(start: u64, all: &[T]) -> u64 {
    all.iter().fold(start, |h, x| x.behind(h))
}

// Prints a space and a digest.
fn digest(output: &impl Print, h: u64) -> io::Result<()> {
    inputs::heard(print!(output; " {h:016x}"))
}

// Prints a space before each of: refusal (0 if accepted), server, mark, reads.
fn told(output: &impl Print, reply: Reply) -> io::Result<()> {
    let n = ReplyNumbers::from(reply);
    inputs::number(output, u64::from(n.refusal))?;
    inputs::number(output, u64::from(n.server))?;
    inputs::number(output, u64::from(n.mark))?;
    inputs::number(output, n.reads as u64)
}

// Prints the digests of ring and roster; a ring of 63 entries has none.
fn rest(output: &impl Print, what: What, ring: &[Entry], roster: Roster) -> io::Result<()> {
    match what {
        What::Short => inputs::text(output, b" -")?,
        What::Event | What::Start => digest(output, over(NOTHING, ring))?,
    }
    digest(output, roster.behind(NOTHING))?;
    inputs::text(output, b"\n")
}

// Prints what an event left.
// Stays (5): the slices are parts of `Buffers`, cut to the lengths that are lent.
pub(crate) fn line(
    output: &impl Print,
    what: What,
    tried: Tried,
    table: &[u8],
    rows: &[u32],
    flags: &[u8],
) -> io::Result<()> {
    let Tried { outcome, ring } = tried;
    told(output, outcome.reply)?;
    inputs::number(output, table::used(table) as u64)?;
    digest(output, over(NOTHING, table))?;
    digest(output, over(NOTHING, rows))?;
    digest(output, over(NOTHING, flags))?;
    rest(output, what, &ring, outcome.roster)
}
