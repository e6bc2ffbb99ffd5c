// What is kept of a window that was read.
ghost use Rattle.std.specs.Prelude.{◌≡◌, ◌+◌, ◌-◌, ◌≤◌, length, if◌then◌else◌};
ghost use Rattle.pcap.specs.Captures.{low_first};
ghost use Rattle.pieces.specs.Pieces.{settled_buffer, settled_kept, too_long, trimmed, most_read_bytes, kept_first, kept_all};

use crate::Kept;
use pcap::{HEADER_BYTES, RECORD_BYTES};

// The bytes of a packet that are ever read.
const MOST_READ: u32 = 88;

// Where the first packet of a window begins.
const FIRST_PACKET: usize = HEADER_BYTES + RECORD_BYTES;

// What is kept of a packet record that is too long.
const MOST_KEPT: usize = RECORD_BYTES + MOST_READ as usize;

// Keeps, of a window of `have` bytes that was read up to `at`, the header and what is behind. Of a packet that the buffer
// has no room for only the first bytes are kept. Places that are out of order (`at` before the header's end or behind the
// window's, a window that ends behind the buffer) change nothing.
pub fn settle(buffer: &mut [u8], have: usize, at: usize) -> Kept
    ensures value { result ≡ settled_kept buffer.old have at }
    ensures buffer_after { buffer.new ≡ settled_buffer buffer.old have at }
{
    if at < HEADER_BYTES || have < at || buffer.len() < have {
        return kept_all(have);
    }
    spans::shift(&mut buffer[HEADER_BYTES..have], at - HEADER_BYTES);
    trim(buffer, have - at)
}

// The whole window is kept.
fn kept_all(have: usize) -> Kept
    ensures { result ≡ kept_all have }
{
    Kept {
        have,
        pass: 0,
        longer: 0,
    }
}

// Keeps only the first bytes of the packet record behind the header, where the buffer has no room for all of it; `kept` of
// its bytes are there.
fn trim(buffer: &mut [u8], kept: usize) -> Kept
    requires { 24 + kept ≤ length buffer.old }
    ensures value { result ≡ (if too_long buffer.old kept then kept_first kept buffer.old else kept_all (24 + kept)) }
    ensures buffer_after { buffer.new ≡ (if too_long buffer.old kept then trimmed buffer.old else buffer.old) }
{
    if kept < MOST_KEPT {
        return kept_all(HEADER_BYTES + kept);
    }
    let low = pcap::low_first(buffer);
    let captured = pcap::captured_length(low, &buffer[HEADER_BYTES..]).unwrap();
    if captured <= buffer.len() - FIRST_PACKET {
        return kept_all(HEADER_BYTES + kept);
    }
    put_length(buffer, low);
    Kept {
        have: HEADER_BYTES + MOST_KEPT,
        pass: captured - (kept - RECORD_BYTES),
        longer: captured - MOST_READ as usize,
    }
}

// Says that 88 bytes of the first packet are there, in the file's byte order.
fn put_length(buffer: &mut [u8], low: bool)
    requires { (36 ≤ length buffer.old) × (low ≡ low_first buffer.old) }
    ensures { buffer.new ≡ trimmed buffer.old }
{
    buffer[32..36].copy_from_slice(&length_bytes(low));
}

// 88 as four bytes.
fn length_bytes(low: bool) -> [u8; 4]
    ensures { result ≡ most_read_bytes low }
{
    if low {
        return MOST_READ.to_le_bytes();
    }
    MOST_READ.to_be_bytes()
}
