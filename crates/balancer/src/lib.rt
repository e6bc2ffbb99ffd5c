// The balancer: a start or an event, over the lent table, rows, flags and ring, with the roster handed in and handed back.

#![tactic(auto)]

ghost use Rattle.std.specs.Prelude.{◌≡◌};
ghost use Rattle.rules.specs.Rules.{world_with, EventPromise, StartPromise};
ghost use Rattle.engine.specs.Looking.{redrawn};

use ring::Entry;
use roster::Roster;
use rows::RowTable;
use rules::Outcome;

// Does what an event record asks, or refuses it by its number and changes nothing.
// Stays (5): `EventPromise` is of the buffers one by one, as callers hold them; so too in `start`.
pub fn event(
    record: &[u8],
    table: &mut [u8],
    rows: &mut [u32],
    flags: &mut [u8],
    ring: &mut [Entry],
    roster: Roster,
) -> Outcome
    ensures { EventPromise «record».now
        (world_with table.old rows.old flags.old ring.old roster)
        (world_with table.new rows.new flags.new ring.new result.roster) result.reply }
{
    let seen = engine::look(record, table, rows.len(), flags.len(), ring.len(), roster);
    let spot = ring::read(ring, seen.places, seen.f);
    let mut lent = RowTable {
        servers: rows,
        flags,
    };
    let out = engine::react(seen, spot, table, &mut lent, roster);
    redraw(ring, out.roster, out.redraw);
    Outcome {
        reply: out.reply,
        roster: out.roster,
    }
}

// Draws the ring anew for a roster, where that is wanted.
fn redraw(ring: &mut [Entry], roster: Roster, wanted: bool)
    ensures { ring.new ≡ redrawn wanted roster ring.old }
{
    if !wanted {
        return;
    }
    let plan = engine::plan_of(roster);
    ring::draw(ring, plan, roster.held);
}

// Starts on a lent table: zeroes it and hands back an empty roster under method 1; refused only by 9. Rows, flags and ring stay as they are.
pub fn start(
    table: &mut [u8],
    rows: &[u32],
    flags: &[u8],
    ring: &[Entry],
    roster: Roster,
) -> Outcome
    ensures { StartPromise
        (world_with table.old rows.now flags.now ring.now roster)
        (world_with table.new rows.now flags.now ring.now result.roster) result.reply }
{
    engine::begin(table, rows.len(), flags.len(), ring.len(), roster)
}
