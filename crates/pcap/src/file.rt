// The numbers of a capture file: its header, and the lengths in its packet records.
ghost use Rattle.std.specs.Prelude.{◌≡◌, ◌+◌, ◌≤◌, length, if◌then◌else◌, nat_lt, IfOk, Ok, Err, Some, None};
ghost use Rattle.pcap.specs.Captures.{header_refusal, refusal_of, low_first, number_by, ethernet, whole, captured, record_size, header_bytes, record_bytes};

use crate::Refusal;

// The bytes of the file's header, and of a packet record's.
pub const HEADER_BYTES: usize = 24;

pub const RECORD_BYTES: usize = 16;

// The magic number, as it reads with the highest byte first: in a file of that order, and in one of the other.
const HIGH_FIRST: u32 = 2712847316;

const LOW_FIRST: u32 = 3569595041;

// Ethernet's number among the link types.
const ETHERNET: u32 = 1;

// What a sound header says: whether numbers stand with the lowest byte first, and whether the packets are Ethernet's.
#[derive(Clone, Copy)]
pub(crate) struct Header {
    pub(crate) low: bool,
    pub(crate) ethernet: bool,
}

// The file's header, or why it is refused.
#[tactic(auto, unfolding(crate::specs::Captures::header_refusal, crate::specs::Captures::ethernet))]
pub(crate) fn read_header(bytes: &[u8]) -> Result<Header, Refusal>
    ensures refused { refusal_of result ≡ header_refusal bytes.now }
    ensures sound { IfOk result (λ h. (h.low ≡ low_first bytes.now) × (h.ethernet ≡ ethernet bytes.now)) }
{
    if bytes.len() < 4 {
        return Err(Refusal::TruncatedHeader);
    }
    let low = match number(false, bytes, 0) {
        LOW_FIRST => true,
        HIGH_FIRST => false,
        _ => return Err(Refusal::BadMagic),
    };
    if bytes.len() < HEADER_BYTES {
        return Err(Refusal::TruncatedHeader);
    }
    let ethernet = number(low, bytes, 20) == ETHERNET;
    Ok(Header { low, ethernet })
}

// Whether a capture's numbers stand with the lowest byte first.
pub fn low_first(bytes: &[u8]) -> bool
    ensures { result ≡ low_first bytes.now }
{
    bytes.len() >= 4 && number(false, bytes, 0) == LOW_FIRST
}

// The number that the four bytes at a place spell, in the file's byte order.
fn number(low: bool, bytes: &[u8], at: usize) -> u32
    requires { at + 4 ≤ length bytes.now }
    ensures { result ≡ number_by low bytes.now at }
{
    let four = [bytes[at], bytes[at + 1], bytes[at + 2], bytes[at + 3]];
    if low {
        return u32::from_le_bytes(four);
    }
    u32::from_be_bytes(four)
}

// The captured length in the packet record that bytes begin with, where the record's header is there.
#[tactic(auto, unfolding(crate::specs::Captures::captured))]
pub fn captured_length(low: bool, bytes: &[u8]) -> Option<usize>
    ensures { result ≡ (if nat_lt (length bytes.now) record_bytes then None else Some (captured low bytes.now)) }
{
    if bytes.len() < RECORD_BYTES {
        return None;
    }
    Some(number(low, bytes, 8) as usize)
}

// The size of the packet record that bytes begin with, where it is whole.
#[tactic(auto, unfolding(crate::specs::Captures::whole))]
pub(crate) fn record_size(low: bool, bytes: &[u8]) -> Result<usize, Refusal>
    ensures size { result ≡ (if whole low bytes.now then Ok (record_size low bytes.now) else Err Refusal.TruncatedRecord) }
    ensures there { IfOk result (λ n. (record_bytes ≤ n) × (n ≤ length bytes.now)) }
{
    let captured = captured_length(low, bytes).ok_or(Refusal::TruncatedRecord)?;
    if captured > bytes.len() - RECORD_BYTES {
        return Err(Refusal::TruncatedRecord);
    }
    Ok(RECORD_BYTES + captured)
}
