// Numbers as bytes, the lowest byte first.

#![tactic(auto)]

ghost use Rattle.std.specs.Prelude.{◌≡◌};
ghost use Rattle.words.specs.Words.{number8};

// The number that eight bytes spell.
pub fn join8(a: u8, b: u8, c: u8, d: u8, e: u8, f: u8, g: u8, h: u8) -> u64
    ensures { result ≡ number8 a b c d e f g h }
{
    u64::from_le_bytes([a, b, c, d, e, f, g, h])
}
