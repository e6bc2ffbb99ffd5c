// The capture program: a capture on standard input becomes event records on standard output; a line on standard error says
// how many packets there were, and why some were skipped. Memory is constant, however long the capture is. Once nobody reads
// the events any more it ends with no line, and with the status that the signal PIPE would give; with that status too where nobody
// reads the line.

#![tactic(auto)]

mod report;

use pcap::Refusal;
use pieces::{LastSaid, Stream};
use std::io;
use std::io::{ErrorKind, Read};
use std::process::ExitCode;

// The most pieces that are read.
const PIECES: u64 = 1000000000000;

// Why a run stopped early: standard input couldn't be read to its end, standard output didn't take every event, or nobody reads
// the events any more.
#[derive(Clone, Copy, PartialEq, Eq, Debug)]
pub enum Failure {
    Input,
    Output,
    Unread,
}

// Reads the capture piece by piece until it ends, or can't be read on; writes what a piece completes before the next one is
// read. What has come of the capture is in `stream`.
fn run(
    input: &mut impl Read,
    output: &impl Print,
    buffer: &mut [u8],
    out: &mut [u8],
    stream: &mut Stream,
) -> Result<(), Failure> {
    for _ in 0..PIECES {
        let got = fetch(input, buffer, *stream).map_err(|_| Failure::Input)?;
        if got == 0 {
            break;
        }
        let more = pieces::advance(buffer, out, *stream, got);
        *stream = more.stream;
        write(output, out, more.filled)?;
        if !may_go_on(stream.said) {
            break;
        }
    }
    Ok(())
}

// Reads once, behind the window and no further than a packet that is passed over; 0 at the end of the input.
fn fetch(input: &mut impl Read, buffer: &mut [u8], stream: Stream) -> io::Result<usize> {
    let Some(room) = buffer.get_mut(stream.have..) else {
        return Ok(0);
    };
    if stream.pass == 0 || stream.pass > room.len() {
        return input.read(room);
    }
    input.read(&mut room[..stream.pass])
}

// Whether more pieces may change anything: not once the capture is refused by its header. A packet record that isn't all there
// yet may still be completed.
fn may_go_on(said: LastSaid) -> bool {
    match said {
        LastSaid::Refused(number) => number == Refusal::TruncatedRecord.number(),
        _ => true,
    }
}

// Writes the first bytes of a buffer.
fn write(output: &impl Print, out: &[u8], filled: usize) -> Result<(), Failure> {
    let events = out.get(..filled).ok_or(Failure::Output)?;
    output.write_all(events).map_err(|e| match e.kind() {
        ErrorKind::BrokenPipe => Failure::Unread,
        _ => Failure::Output,
    })
}

// Both buffers have one length, whatever the capture's is. The second is twice as long, which is room for all events of the
// first.
fn main(rt: HostRuntime) -> ExitCode {
    let mut input = rt.stdin();
    let mut buffer = [0u8; 65536];
    let mut out = [0u8; 131072];
    let mut stream = pieces::begin();
    let done = run(&mut input, &rt, &mut buffer, &mut out, &mut stream);
    if done == Err(Failure::Unread) {
        return ExitCode::from(141);
    }
    inputs::status(report::say(&rt.stderr(), &buffer, stream, done))
}
