// The events of a window, put into a buffer one after the other.
ghost use Rattle.std.specs.Prelude.{◌≡◌};
ghost use Rattle.pieces.specs.Pieces.{read_on, enough, room_for, filled_by, filled_of, written};

use crate::{Filled, Stop};
use event::EVENT_BYTES;
use pcap::{Said, Tally};

// Puts the events of a capture, from a place on, into a buffer: as many as there are, or as it has room for.
pub fn fill_events(bytes: &[u8], at: usize, tally: Tally, out: &mut [u8]) -> Filled
    ensures value { filled_of result ≡ filled_by (read_on (enough bytes.now) (room_for out.old) bytes.now at tally) }
    ensures out_after { out.new ≡ written (read_on (enough bytes.now) (room_for out.old) bytes.now at tally) out.old }
{
    let mut reader = pcap::moved(pcap::open(bytes, tally), at, tally);
    let mut filled = 0;
    // Stays (3): a call of the reader may give no event, so no iterator counts the events' places.
    let stop = loop {
        if out.len() - filled < EVENT_BYTES {
            break Stop::Full;
        }
        let step = pcap::next(reader);
        reader = pcap::moved(reader, step.at, step.tally);
        match step.said {
            Said::Event(event) => {
                out[filled..filled + EVENT_BYTES].copy_from_slice(&event);
                filled += EVENT_BYTES;
            }
            Said::Skipped(_) => {}
            Said::Finished => break Stop::Finished,
            Said::Refused(refusal) => break Stop::Refused(refusal),
        }
    };
    Filled {
        stop,
        at: reader.at,
        tally: reader.tally,
        filled,
    }
}
