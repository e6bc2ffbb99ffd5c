// Numbers as bytes, the highest byte first.

#![tactic(auto)]

ghost use Rattle.std.specs.Prelude.{◌≡◌};
ghost use Rattle.bigendian.specs.BigEndian.{bytes4, number4, number2};

// The four bytes of a number.
pub fn split4(n: u32) -> [u8; 4]
    ensures { result ≡ bytes4 n }
{
    n.to_be_bytes()
}

// The number that four bytes spell.
pub fn join4(a: u8, b: u8, c: u8, d: u8) -> u32
    ensures { result ≡ number4 a b c d }
{
    u32::from_be_bytes([a, b, c, d])
}

// The number that two bytes spell.
pub fn join2(a: u8, b: u8) -> u16
    ensures { result ≡ number2 a b }
{
    u16::from_be_bytes([a, b])
}
