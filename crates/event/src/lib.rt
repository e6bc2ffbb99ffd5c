// An event record of bytes, taken apart.

#![tactic(auto)]

ghost use Rattle.std.specs.Prelude.{◌≡◌, ℕ};
ghost use Rattle.event.specs.Event.{request_of, asked_of, settings_of, asks_server, asks_settings, by_kind, event_in};

use settings::{BODY_BYTES, Settings};

// An event record's bytes: the kind, two zeros and the body.
pub const EVENT_BYTES: usize = 3 + BODY_BYTES;

// The kinds, in the order of document 01's table.
// Stays (1): document 01 names the form, "Event dispatch by kind number, unknown kinds in the last arm refused with 1".
pub const PACKET: u8 = 1;

pub const END: u8 = 2;

pub const ADD_WORKING: u8 = 3;

pub const REMOVE_WORKING: u8 = 4;

pub const ADD_HORIZON: u8 = 5;

pub const REMOVE_HORIZON: u8 = 6;

pub const CONFIGURE: u8 = 7;

// An event, with what its kind carries: the key, which is the whole body, the server, or the settings.
#[derive(Clone, Copy)]
pub enum Event {
    Packet([u8; BODY_BYTES]),
    End([u8; BODY_BYTES]),
    AddWorking(u32),
    RemoveWorking(u32),
    AddHorizon(u32),
    RemoveHorizon(u32),
    Configure(Settings),
}

// Why a record is no event.
#[derive(Clone, Copy, PartialEq, Eq, Debug)]
pub enum Fault {
    // "event not 16 bytes, unknown kind, non-zero filler, bad method or row count"
    Malformed,
    // "kinds 3 to 6 with server 0"
    ServerZero,
}

// Takes a record of bytes apart by its kind number.
pub fn read(bytes: &[u8]) -> Result<Event, Fault>
    ensures { request_of result ≡ event_in bytes.now }
{
    if bytes.len() != EVENT_BYTES || bytes[1] != 0 || bytes[2] != 0 {
        return Err(Fault::Malformed);
    }
    let mut body = [0; BODY_BYTES];
    body.copy_from_slice(&bytes[3..]);
    by_kind(bytes[0], body)
}

// What a kind number makes of the bytes that follow it; a number that is no kind is refused.
#[tactic(auto, unfolding(crate::specs::Event::by_kind))]
fn by_kind(kind: u8, body: [u8; BODY_BYTES]) -> Result<Event, Fault>
    ensures { request_of result ≡ by_kind kind body }
{
    match kind {
        PACKET => Ok(Event::Packet(body)),
        END => Ok(Event::End(body)),
        ADD_WORKING => Ok(Event::AddWorking(server_in(body)?)),
        REMOVE_WORKING => Ok(Event::RemoveWorking(server_in(body)?)),
        ADD_HORIZON => Ok(Event::AddHorizon(server_in(body)?)),
        REMOVE_HORIZON => Ok(Event::RemoveHorizon(server_in(body)?)),
        CONFIGURE => Ok(Event::Configure(settings_in(body)?)),
        _ => Err(Fault::Malformed),
    }
}

// The server that the first four bytes spell, unless a byte after it isn't zero, or the server is 0.
#[tactic(auto, unfolding(crate::specs::Event::asks_server))]
fn server_in(body: [u8; BODY_BYTES]) -> Result<u32, Fault>
    ensures { (kind : ℕ) → asked_of kind result ≡ asks_server kind body }
{
    if !spans::all_zero(&body[4..]) {
        return Err(Fault::Malformed);
    }
    let server = bigendian::join4(body[0], body[1], body[2], body[3]);
    if server == 0 {
        return Err(Fault::ServerZero);
    }
    Ok(server)
}

// The settings that the bytes name, where they are well formed.
#[tactic(auto, unfolding(crate::specs::Event::asks_settings))]
fn settings_in(body: [u8; BODY_BYTES]) -> Result<Settings, Fault>
    ensures { settings_of result ≡ asks_settings body }
{
    if !settings::well_formed(body) {
        return Err(Fault::Malformed);
    }
    Ok(settings::named(body))
}
