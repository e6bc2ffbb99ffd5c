// The hashes of document 01: of bytes, of a key, of a server at a digest, and of a server on the ring.

#![tactic(auto)]

ghost use Rattle.std.specs.Prelude.{◌≡◌};
ghost use Rattle.hash.specs.Hash.{stir, F, digest as digest-of, weight as weight-of, position as position-of, distance as distance-of};

// Stays (4): document 01 names the form, "FNV and weight products are formed in u64 and reduced by remainder"; so too in `weight`.
// One byte into the running hash: xored in, then multiplied modulo 2^32.
#[tactic(auto, unfolding(crate::specs::Hash::stir))]
fn step(h: u32, byte: u8) -> u32
    ensures { result ≡ stir h byte }
{
    let mixed = u64::from(h) ^ u64::from(byte);
    (mixed * 16777619 % 4294967296) as u32
}

// F: FNV-1a 32 over the lent bytes.
pub fn fnv(bytes: &[u8]) -> u32
    ensures { result ≡ F bytes.now }
{
    bytes.iter().fold(2166136261, |h, &byte| step(h, byte))
}

// The digest of a key, by which HRW weighs servers, from the key's F.
pub fn digest(f: u32) -> u32
    ensures { result ≡ digest-of f }
{
    f % 2147483648
}

// The weight of a server at a digest. Only the low 31 bits of any step matter, so the second
// product is formed of 31 bits and fits.
#[tactic(auto, using(crate::proofs::LowBits::step_low), unfolding(crate::specs::Hash::weight))]
pub fn weight(server: u32, digest: u32) -> u32
    ensures { result ≡ weight-of server digest }
{
    let first = 1103515245 * u64::from(server) + 12345;
    let mixed = first ^ u64::from(digest);
    ((1103515245 * (mixed % 2147483648) + 12345) % 2147483648) as u32
}

// Where a server stands on the ring.
pub fn position(server: u32) -> u32
    ensures { result ≡ position-of server }
{
    fnv(&bigendian::split4(server))
}

// How far clockwise it is from a point to a position.
#[tactic(auto, unfolding(crate::specs::Hash::distance))]
pub fn distance(position: u32, point: u32) -> u32
    ensures { result ≡ distance-of position point }
{
    position.wrapping_sub(point)
}
