// One captured packet: whether it becomes events, for which key, or why it is skipped.

#![tactic(auto)]

ghost use Rattle.std.specs.Prelude.{◌≡◌, ◌+◌, ◌<◌, ◌≤◌, length, OnOk, OnErr, IfErr};
ghost use Rattle.frames.specs.Frames.{outcome_of, outcome, of_ethernet, of_ipv4, key_in, ports_at, header_words};

// The bytes of a key: two addresses, two ports and the protocol.
pub const KEY_BYTES: usize = 13;

// The numbers that Ethernet and IPv4 give to IPv4, TCP and UDP.
const IPV4: u16 = 2048;

const TCP: u8 = 6;

const UDP: u8 = 17;

// Why a packet is skipped, in the order in which the reasons are asked.
#[derive(Clone, Copy, PartialEq, Eq, Debug)]
pub enum Skip {
    LinkType,
    NotIpv4,
    Fragment,
    OtherProtocol,
    CutShort,
}

// What a packet carries that becomes events: its key, and whether it is TCP's with FIN.
#[derive(Clone, Copy, PartialEq, Eq, Debug)]
pub struct Carried {
    pub fin: bool,
    pub key: [u8; KEY_BYTES],
}

// What becomes of a captured packet; `ethernet` says whether the capture's link type is Ethernet.
#[tactic(auto, unfolding(crate::specs::Frames::outcome))]
pub fn judge(ethernet: bool, packet: &[u8]) -> Result<Carried, Skip>
    ensures { outcome_of result ≡ outcome ethernet packet.now }
{
    if !ethernet {
        return Err(Skip::LinkType);
    }
    of_ethernet(packet)
}

// Asks that a packet's first n bytes are there, which decide the next question.
fn at_least(packet: &[u8], n: usize) -> Result<(), Skip>
    ensures there { OnOk result (n ≤ length packet.now) }
    ensures missing { OnErr result (length packet.now < n) }
    ensures reason { IfErr result (λ why. why ≡ Skip.CutShort) }
{
    if packet.len() < n {
        return Err(Skip::CutShort);
    }
    Ok(())
}

// Asks an Ethernet packet whether IPv4 is in it, in a form that can be read.
#[tactic(auto, unfolding(crate::specs::Frames::of_ethernet))]
fn of_ethernet(packet: &[u8]) -> Result<Carried, Skip>
    ensures { outcome_of result ≡ of_ethernet packet.now }
{
    at_least(packet, 14)?;
    if u16::from_be_bytes([packet[12], packet[13]]) != IPV4 {
        return Err(Skip::NotIpv4);
    }
    at_least(packet, 15)?;
    if packet[14] / 16 != 4 || packet[14] % 16 < 5 {
        return Err(Skip::NotIpv4);
    }
    of_ipv4(packet)
}

// Asks an IPv4 packet whether it has the ports, being no later fragment, and of a protocol that has ports. UDP needs its ports,
// TCP its flags too.
#[tactic(auto, unfolding(crate::specs::Frames::of_ipv4))]
fn of_ipv4(packet: &[u8]) -> Result<Carried, Skip>
    requires { 5 ≤ header_words packet.now }
    ensures { outcome_of result ≡ of_ipv4 packet.now }
{
    at_least(packet, 22)?;
    if u16::from_be_bytes([packet[20], packet[21]]) % 8192 != 0 {
        return Err(Skip::Fragment);
    }
    at_least(packet, 24)?;
    let ports = ports_at(packet);
    match packet[23] {
        TCP => {
            at_least(packet, ports + 14)?;
            let fin = packet[ports + 13] % 2 == 1;
            let key = key_in(packet, ports);
            Ok(Carried { fin, key })
        }
        UDP => {
            at_least(packet, ports + 4)?;
            let key = key_in(packet, ports);
            Ok(Carried { fin: false, key })
        }
        _ => Err(Skip::OtherProtocol),
    }
}

// Where the ports stand: behind the IPv4 header and its options.
fn ports_at(packet: &[u8]) -> usize
    requires { 24 ≤ length packet.now }
    ensures { result ≡ ports_at packet.now }
{
    14 + usize::from(packet[14] % 16) * 4
}

// The key of a packet whose ports stand at a place.
fn key_in(packet: &[u8], ports: usize) -> [u8; KEY_BYTES]
    requires { (ports ≡ ports_at packet.now) × ((34 ≤ ports) × (ports + 4 ≤ length packet.now)) }
    ensures { result ≡ key_in packet.now }
{
    let mut key = [0; KEY_BYTES];
    key[..8].copy_from_slice(&packet[26..34]);
    key[8..12].copy_from_slice(&packet[ports..ports + 4]);
    key[12] = packet[23];
    key
}
