// A capture that comes in pieces: each stands behind the window when it is taken in, and what it completes becomes event
// records.
ghost use Rattle.std.specs.Prelude.{◌≡◌, ◌+◌, ◌%◌, ◌^◌, ◌≤◌, length, if◌then◌else◌, nat_eq, Some};
ghost use Rattle.pcap.specs.Captures.{header_bytes, short_record, number_of};
ghost use Rattle.pieces.specs.Streams.{beginning, stream_of, advanced_of, ending_of, taken, passed_by, window_done, passed_over, ending};

use crate::{Advanced, Ending, LastSaid, Stream, fill, keep};
use pcap::{HEADER_BYTES, Refusal};

// A capture of which nothing has come.
pub fn begin() -> Stream
    ensures { stream_of result ≡ beginning }
{
    Stream {
        have: 0,
        pass: 0,
        longer: 0,
        before: 0,
        tally: pcap::nothing(),
        said: LastSaid::Finished,
    }
}

// Takes in a piece of `got` bytes that stands behind the window: it belongs to the packet that is passed over, or the window
// grows by it. Then the window is read into `out`, and what isn't done of it is kept. A second buffer twice as long as the
// first has room for all events of a window; where there was less, the stream says `Event`, and the others come with the next
// piece. A piece that doesn't fit behind the window, or goes beyond the packet that is passed over, isn't taken: nothing
// changes.
#[tactic(auto, unfolding(crate::specs::Streams::taken))]
pub fn advance(buffer: &mut [u8], out: &mut [u8], stream: Stream, got: usize) -> Advanced
    ensures value { advanced_of result ≡ (taken buffer.old out.old (stream_of stream) got).answer }
    ensures buffer_after { buffer.new ≡ (taken buffer.old out.old (stream_of stream) got).buffer }
    ensures out_after { out.new ≡ (taken buffer.old out.old (stream_of stream) got).out }
{
    let have = stream.have;
    if have > buffer.len() || got > buffer.len() - have {
        return Advanced { stream, filled: 0 };
    }
    if stream.pass != 0 {
        return pass_over(buffer, out, stream, got);
    }
    let grown = Stream {
        have: have + got,
        ..stream
    };
    if have + got < HEADER_BYTES {
        return Advanced {
            stream: grown,
            filled: 0,
        };
    }
    window(buffer, out, grown)
}

// A piece of a packet that is too long for the buffer; with its last byte the window can be read.
fn pass_over(buffer: &mut [u8], out: &mut [u8], stream: Stream, got: usize) -> Advanced
    requires { stream.have ≤ length buffer.old }
    ensures value { advanced_of result ≡ (passed_by buffer.old out.old (stream_of stream) got).answer }
    ensures buffer_after { buffer.new ≡ (passed_by buffer.old out.old (stream_of stream) got).buffer }
    ensures out_after { out.new ≡ (passed_by buffer.old out.old (stream_of stream) got).out }
{
    if got < stream.pass {
        let stream = Stream {
            pass: stream.pass - got,
            ..stream
        };
        return Advanced { stream, filled: 0 };
    }
    if got > stream.pass {
        return Advanced { stream, filled: 0 };
    }
    window(buffer, out, passed_over(stream))
}

// The last byte of a packet that is too long for the buffer has come.
fn passed_over(stream: Stream) -> Stream
    ensures passed { stream_of result ≡ passed_over (stream_of stream) }
    ensures window { result.have ≡ stream.have }
{
    Stream {
        pass: 0,
        longer: 0,
        before: stream.before.wrapping_add(stream.longer as u64),
        ..stream
    }
}

// Reads the window, and keeps what isn't done.
#[inline]
fn window(buffer: &mut [u8], out: &mut [u8], stream: Stream) -> Advanced
    requires { stream.have ≤ length buffer.old }
    ensures value { advanced_of result ≡ (window_done buffer.old out.old (stream_of stream)).answer }
    ensures buffer_after { buffer.new ≡ (window_done buffer.old out.old (stream_of stream)).buffer }
    ensures out_after { out.new ≡ (window_done buffer.old out.old (stream_of stream)).out }
{
    let done = fill::fill_events(&buffer[..stream.have], HEADER_BYTES, stream.tally, out);
    let kept = keep::settle(buffer, stream.have, done.at);
    let records = done.at.saturating_sub(HEADER_BYTES);
    Advanced {
        stream: Stream {
            have: kept.have,
            pass: kept.pass,
            longer: kept.longer,
            before: stream.before.wrapping_add(records as u64),
            tally: done.tally,
            said: done.stop.into(),
        },
        filled: done.filled,
    }
}

// What a capture that has ended is refused by, if it is: what stands first in the window, or a packet that isn't all there.
pub fn end(buffer: &[u8], stream: Stream) -> Option<Ending>
    ensures { ending_of result ≡ ending buffer.now (stream_of stream) }
{
    let have = stream.have.min(buffer.len());
    match pcap::refusal_at(&buffer[..have], HEADER_BYTES) {
        Some(refusal) => Some(refused(refusal, stream.before)),
        None if stream.pass != 0 => Some(refused(Refusal::TruncatedRecord, stream.before)),
        None => None,
    }
}

// A refusal, and where it stands: only a truncated record has a place of its own.
fn refused(refusal: Refusal, before: u64) -> Ending
    ensures { ending_of (Some result) ≡ record { refusal = number_of refusal; at = (if nat_eq (number_of refusal) short_record then (before + header_bytes) % 2 ^ 64 else 0) } }
{
    let at = match refusal {
        Refusal::TruncatedRecord => before.wrapping_add(HEADER_BYTES as u64),
        _ => 0,
    };
    Ending { refusal, at }
}
