// The engine: what an event does to the lent table, rows and flags and to the roster. It never sees the
// ring: `look` says what is to be read from it, `react` is handed the entry read, and says whether
// the ring is to be drawn anew.

#![tactic(auto)]

mod looking;

ghost use Rattle.std.specs.Prelude.{◌≡◌, length, List, ℕ};
ghost use Rattle.event.specs.Event.{request_by, event_in};
ghost use Rattle.roster.specs.Roster.{sound as sound_of, held_servers, working_set};
ghost use Rattle.rows.specs.Lent.{rows_in, SameLists};
ghost use Rattle.ringplan.specs.Plan.{planned};
ghost use Rattle.rules.specs.Rules.{world_with, StartPromise, sizes_right};
ghost use Rattle.engine.specs.Looking.{look_of, lookup_facts, admitted_so_far, asked_in, settle_of, react_of};
ghost use Rattle.answers.specs.Reacting.{state_over, reacted, settled};

use answers::{Done, Facts, Reaction};
use event::Event;
use packets::Asked;
use ring::Entry;
use roster::Roster;
use rows::RowTable;
use rules::{Outcome, Refusal, RefusedBy};
use table::Found;

// What a look at an event record finds before the ring is read.
// Stays (1): an Option of places is no plainer: of 0 places `ring::read` gives an entry, which nobody looks at.
#[derive(Clone, Copy)]
pub struct Lookup {
    pub event: Result<Event, RefusedBy>,
    pub found: Found,
    pub f: u32,
    pub places: usize,
    pub sized: bool,
}

// Reads the event record, tests the lengths of what is lent, and looks for the key's record.
pub fn look(
    bytes: &[u8],
    table: &[u8],
    rows: usize,
    flags: usize,
    ring: usize,
    roster: Roster,
) -> Lookup
    ensures { lookup_facts result
        ≡ look_of (sizes_right (length table.now) rows flags ring) (event_in bytes.now) table.now roster }
{
    let sized = looking::sizes_right(table.len(), rows, flags, ring);
    looking::seek(looking::read(bytes), table, sized, roster)
}

// Does what the event asks to table, rows and flags, or refuses it; `spot` is the ring's entry that was read for it.
pub fn react(
    seen: Lookup,
    spot: Entry,
    table: &mut [u8],
    rows: &mut RowTable,
    mut roster: Roster,
) -> Reaction
    ensures same { SameLists rows.old rows.new }
    ensures done { reacted result table.new (rows_in rows.new)
        ≡ react_of seen spot (state_over table.old (rows_in rows.old) roster) }
{
    let event = match admit(seen.event, seen.sized, &roster) {
        Ok(event) => event,
        Err(refused) => {
            return Reaction {
                reply: refused.into(),
                roster,
                redraw: false,
            };
        }
    };
    match settle(event, seen, spot, table, rows, &mut roster) {
        Ok(done) => Reaction {
            reply: done.facts.into(),
            roster,
            redraw: done.redraw,
        },
        Err(refusal) => Reaction {
            reply: refusal.into(),
            roster,
            redraw: false,
        },
    }
}

// What an event comes to, or why it is refused: then nothing has changed.
fn settle(
    event: Event,
    seen: Lookup,
    spot: Entry,
    table: &mut [u8],
    rows: &mut RowTable,
    roster: &mut Roster,
) -> Result<Done, Refusal>
    ensures same { SameLists rows.old rows.new }
    ensures done { settled result table.new (rows_in rows.new) roster.new
        ≡ settle_of (request_by event) seen spot (state_over table.old (rows_in rows.old) roster.old) }
{
    match event {
        Event::Packet(key) => {
            let asked = Asked {
                key,
                found: seen.found,
                f: seen.f,
                spot,
            };
            let facts = packets::packet(asked, table, rows.view(), roster)?;
            Ok(Done {
                facts,
                redraw: false,
            })
        }
        Event::End(_) => Ok(Done {
            facts: changes::end(seen.found, table),
            redraw: false,
        }),
        Event::AddWorking(server) => changes::add_working(server, rows, roster),
        Event::RemoveWorking(server) => changes::remove_working(server, table, rows, roster),
        Event::AddHorizon(server) => changes::add_horizon(server, rows, roster),
        Event::RemoveHorizon(server) => changes::remove_horizon(server, rows, roster),
        Event::Configure(settings) => changes::configure(settings, table, rows, roster),
    }
}

// The event, unless what is lent or the number beside it refuses it. A packet's roster is tested in `packets::packet`, where its
// lists are lent.
fn admit(event: Result<Event, RefusedBy>, sized: bool, roster: &Roster) -> Result<Event, RefusedBy>
    ensures { asked_in result ≡ admitted_so_far sized (sound_of roster.now) (asked_in event) }
{
    if !sized {
        return Err(Refusal::WrongLengths.into());
    }
    if !looking::is_packet(event)
        && !roster::parts::sound(roster.places(), roster.held, roster.settings)
    {
        return Err(Refusal::UnsoundRoster.into());
    }
    event
}

// Starts on a lent table: refused only by 9, else the table is zeroed and the roster is empty.
pub fn begin(table: &mut [u8], rows: usize, flags: usize, ring: usize, roster: Roster) -> Outcome
    ensures { (ns fs : List ℕ) (es : List Entry) → length ns ≡ rows → length fs ≡ flags → length es ≡ ring
        → StartPromise (world_with table.old ns fs es roster)
        (world_with table.new ns fs es result.roster) result.reply }
{
    if !looking::sizes_right(table.len(), rows, flags, ring) {
        return Outcome {
            reply: Refusal::WrongLengths.into(),
            roster,
        };
    }
    table::start(table);
    Outcome {
        reply: Facts::default().into(),
        roster: roster::empty(),
    }
}

// The plan of the ring for a roster.
pub fn plan_of(r: Roster) -> [Entry; ring::RING_PLACES]
    ensures { result ≡ planned (held_servers r) (working_set r) }
{
    ringplan::plan(r.movers())
}
