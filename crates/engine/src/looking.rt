// What can be told of an event record before the ring is read.
ghost use Rattle.std.specs.Prelude.{◌≡◌, cond, not, false, eqb};
ghost use Rattle.event.specs.Event.{event_in, packet_kind};
ghost use Rattle.rules.specs.Rules.{sizes_right, is};
ghost use Rattle.settings.specs.Settings.{by_ring};
ghost use Rattle.table.specs.Table.{finding_of};
ghost use Rattle.engine.specs.Looking.{asked_in, look_of, lookup_facts, key_asked};

use crate::Lookup;
use event::Event;
use roster::Roster;
use rules::RefusedBy;
use table::Found;

// Whether every lent buffer has its length: refusal 9.
#[tactic(auto, unfolding(rules::specs::Rules::sizes_right))]
pub(crate) fn sizes_right(table: usize, rows: usize, flags: usize, ring: usize) -> bool
    ensures { result ≡ sizes_right table rows flags ring }
{
    table != 0
        && table <= table::MOST_TABLE_BYTES
        && table % table::RECORD_BYTES == 0
        && rows == rows::ROW_PLACES
        && flags == rows::ROW_PLACES
        && ring == ring::RING_PLACES
}

// The event that a record is, or the number that refuses it.
pub(crate) fn read(bytes: &[u8]) -> Result<Event, RefusedBy>
    ensures { asked_in result ≡ event_in bytes.now }
{
    Ok(event::read(bytes)?)
}

// Looks for the key's record, where the event has a key; for a packet without one also F of the key,
// and how many ring entries are to be searched. The table is searched in this one place.
pub(crate) fn seek(
    event: Result<Event, RefusedBy>,
    table: &[u8],
    sized: bool,
    roster: Roster,
) -> Lookup
    ensures { lookup_facts result ≡ look_of sized (asked_in event) table.now roster }
{
    let nothing = Lookup {
        event,
        found: Found::Nothing(0),
        f: 0,
        places: 0,
        sized,
    };
    let Some(key) = key_of(event) else {
        return nothing;
    };
    let found = table::find(table, key);
    if !unrecorded(event, found) {
        return Lookup { found, ..nothing };
    }
    Lookup {
        found,
        f: hash::fnv(&key),
        places: places_read(roster),
        ..nothing
    }
}

// The key of a packet or an end.
fn key_of(event: Result<Event, RefusedBy>) -> Option<[u8; table::KEY_BYTES]>
    ensures { result ≡ key_asked (asked_in event) }
{
    match event {
        Ok(Event::Packet(key)) => Some(key),
        Ok(Event::End(key)) => Some(key),
        _ => None,
    }
}

// Whether it is a packet whose key has no record.
fn unrecorded(event: Result<Event, RefusedBy>, found: Found) -> bool
    ensures { result ≡ cond (is packet_kind (asked_in event)) (not (finding_of found).found) false }
{
    is_packet(event) && matches!(found, Found::Nothing(_))
}

// Whether a packet is asked for.
pub(crate) fn is_packet(event: Result<Event, RefusedBy>) -> bool
    ensures { result ≡ is packet_kind (asked_in event) }
{
    matches!(event, Ok(Event::Packet(_)))
}

// How many ring entries a packet without a record searches.
fn places_read(roster: Roster) -> usize
    ensures { result ≡ cond (eqb roster.settings.method by_ring) roster.held 0 }
{
    if roster.settings.method == settings::RING {
        return roster.held;
    }
    0
}
