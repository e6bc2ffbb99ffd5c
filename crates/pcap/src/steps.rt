// What the reader does at a place, over plain bytes and numbers.
ghost use Rattle.std.specs.Prelude.{◌≡◌, ◌+◌, ◌^◌, ◌<◌, false, length, IfOk, IfErr};
ghost use Rattle.frames.specs.Frames.{outcome_of, emitted, reason_of};
ghost use Rattle.pcap.specs.Captures.{Event, Refused, number_of, step_at, step_of, silent, refusal_at, refusal_found, refusal_of, record_at, meets, with_one, event_record};

use crate::file::{Header, RECORD_BYTES};
use crate::{Refusal, Said, Step, Tally, file};
use event::EVENT_BYTES;
use frames::{Carried, KEY_BYTES, Skip};

// What stands at a place of a capture: an event, a packet that is skipped, the end, or why it can't be read on.
// Stays (5): document 01 names this form for the reader, thin functions over one that takes slice and number.
pub fn step_at(bytes: &[u8], at: usize, tally: Tally) -> Step
    ensures { step_of result ≡ step_at bytes.now at tally }
{
    match read_at(bytes, at, tally) {
        Ok(step) => step,
        Err(refusal) => Step {
            said: Said::Refused(refusal),
            at,
            tally,
        },
    }
}

// The same, where the capture isn't refused there.
#[tactic(auto, unfolding(crate::specs::Captures::step_at))]
fn read_at(bytes: &[u8], at: usize, tally: Tally) -> Result<Step, Refusal>
    ensures read { IfOk result (λ step. step_of step ≡ step_at bytes.now at tally) }
    ensures refused { IfErr result (λ why. step_at bytes.now at tally ≡ silent (Refused (number_of why)) at tally) }
{
    let header = file::read_header(bytes)?;
    if at >= bytes.len() {
        return Ok(Step {
            said: Said::Finished,
            at,
            tally,
        });
    }
    record_at(header, &bytes[at..], at, tally)
}

// What a packet record at a place gives, where it is whole; `bytes` begin with it.
#[tactic(auto, unfolding(crate::specs::Captures::record_at))]
fn record_at(header: Header, bytes: &[u8], at: usize, tally: Tally) -> Result<Step, Refusal>
    requires { at + length bytes.now < 2 ^ 64 }
    ensures read { IfOk result (λ step. step_of step ≡ record_at header.ethernet header.low bytes.now at tally) }
    ensures refused { IfErr result (λ why. record_at header.ethernet header.low bytes.now at tally ≡ silent (Refused (number_of why)) at tally) }
{
    let size = file::record_size(header.low, bytes)?;
    let outcome = frames::judge(header.ethernet, &bytes[RECORD_BYTES..size]);
    Ok(meet(outcome, at, at + size, tally))
}

// Why a capture is refused at a place, if it is: what a reader there would say, without its event.
pub fn refusal_at(bytes: &[u8], at: usize) -> Option<Refusal>
    ensures { refusal_found result ≡ refusal_at bytes.now at }
{
    readable_at(bytes, at).err()
}

// Asks that a capture can be read on at a place.
#[tactic(auto, unfolding(crate::specs::Captures::refusal_at))]
fn readable_at(bytes: &[u8], at: usize) -> Result<(), Refusal>
    ensures { refusal_of result ≡ refusal_at bytes.now at }
{
    let header = file::read_header(bytes)?;
    if at < bytes.len() {
        file::record_size(header.low, &bytes[at..])?;
    }
    Ok(())
}

// A packet at a place, with what became of it, and the place behind it.
#[tactic(auto, unfolding(crate::specs::Captures::meets))]
fn meet(outcome: Result<Carried, Skip>, at: usize, next: usize, tally: Tally) -> Step
    ensures { step_of result ≡ meets (outcome_of outcome) at next tally }
{
    match outcome {
        Err(why) => Step {
            said: Said::Skipped(why),
            at: next,
            tally: tally.with_skipped(why),
        },
        Ok(packet) => {
            if !packet.fin {
                return gives(event::PACKET, packet, next, tally.with_emitted(false));
            }
            if tally.due {
                return gives(
                    event::END,
                    packet,
                    next,
                    Tally {
                        due: false,
                        ..tally
                    },
                );
            }
            gives(event::PACKET, packet, at, tally.with_emitted(true))
        }
    }
}

// A call that gives an event: of a kind, with the packet's key.
// Stays (1): the kind is the record's first byte, and crate `event` keeps the kinds as numbers.
fn gives(kind: u8, packet: Carried, at: usize, tally: Tally) -> Step
    ensures { step_of result ≡ record { said = Event; event = event_record kind packet.key; at = at; tally = tally } }
{
    Step {
        said: Said::Event(event_record(kind, packet.key)),
        at,
        tally,
    }
}

// An event record: of a kind, with a key.
fn event_record(kind: u8, key: [u8; KEY_BYTES]) -> [u8; EVENT_BYTES]
    ensures { result ≡ event_record kind key }
{
    let mut event = [0; EVENT_BYTES];
    event[0] = kind;
    event[3..].copy_from_slice(&key);
    event
}

impl Tally {
    // The sums with one packet more that becomes events; whether its end is still to come.
    #[tactic(auto, unfolding(crate::specs::Captures::with_one))]
    fn with_emitted(self, due: bool) -> Tally
        ensures { result ≡ with_one emitted due self }
    {
        Tally {
            due,
            read: self.read.wrapping_add(1),
            emitted: self.emitted.wrapping_add(1),
            ..self
        }
    }

    // The sums with one packet more that is skipped.
    #[tactic(auto, unfolding(crate::specs::Captures::with_one))]
    fn with_skipped(self, why: Skip) -> Tally
        ensures { result ≡ with_one (reason_of why) false self }
    {
        let more = Tally {
            due: false,
            read: self.read.wrapping_add(1),
            ..self
        };
        match why {
            Skip::LinkType => Tally {
                linktype: self.linktype.wrapping_add(1),
                ..more
            },
            Skip::NotIpv4 => Tally {
                notipv4: self.notipv4.wrapping_add(1),
                ..more
            },
            Skip::Fragment => Tally {
                fragment: self.fragment.wrapping_add(1),
                ..more
            },
            Skip::OtherProtocol => Tally {
                other: self.other.wrapping_add(1),
                ..more
            },
            Skip::CutShort => Tally {
                short: self.short.wrapping_add(1),
                ..more
            },
        }
    }
}
