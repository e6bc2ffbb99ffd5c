// The balancer with the ring by value.

#![tactic(auto)]

ghost use Rattle.std.specs.Prelude.{◌≡◌, replicate};
ghost use Rattle.ring.specs.Ring.{blank};
ghost use Rattle.rules.specs.Rules.{world_with, EventPromise, StartPromise};

use ring::Entry;
use roster::Roster;
use rules::Outcome;

// What an event hands back here: the outcome, and the ring afterwards.
#[derive(Clone, Copy)]
pub struct Tried {
    pub outcome: Outcome,
    pub ring: [Entry; ring::RING_PLACES],
}

// Does what an event record asks, on a ring that is handed in and handed back.
// Stays (5): as `balancer` takes them; so too below.
pub fn event(
    record: &[u8],
    table: &mut [u8],
    rows: &mut [u32],
    flags: &mut [u8],
    mut ring: [Entry; ring::RING_PLACES],
    roster: Roster,
) -> Tried
    ensures { EventPromise «record».now
        (world_with table.old rows.old flags.old ring roster)
        (world_with table.new rows.new flags.new result.ring result.outcome.roster) result.outcome.reply }
{
    let outcome = balancer::event(record, table, rows, flags, &mut ring, roster);
    Tried { outcome, ring }
}

// Starts on a lent table with a ring that stays as it is.
pub fn start(
    table: &mut [u8],
    rows: &[u32],
    flags: &[u8],
    ring: [Entry; ring::RING_PLACES],
    roster: Roster,
) -> Outcome
    ensures { StartPromise
        (world_with table.old rows.now flags.now ring roster)
        (world_with table.new rows.now flags.now ring result.roster) result.reply }
{
    balancer::start(table, rows, flags, &ring, roster)
}

// An event that meets a ring of 63 blank entries: refused with 9, whatever the rest is.
pub fn event_short(
    record: &[u8],
    table: &mut [u8],
    rows: &mut [u32],
    flags: &mut [u8],
    roster: Roster,
) -> Outcome
    ensures { EventPromise «record».now
        (world_with table.old rows.old flags.old (replicate 63 blank) roster)
        (world_with table.new rows.new flags.new (replicate 63 blank) result.roster) result.reply }
{
    let mut ring = [Entry::default(); 63];
    balancer::event(record, table, rows, flags, &mut ring, roster)
}
