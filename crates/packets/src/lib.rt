// Packets: the key's record, or else what the method in force gives. The roster's movers are lent where they stand.

#![tactic(auto)]

ghost use Rattle.std.specs.Prelude.{◌≡◌, true, cond, List, ℕ, eqb};
ghost use Rattle.sets.specs.Sets.{in_state, working};
ghost use Rattle.settings.specs.Settings.{by_row_table};
ghost use Rattle.rows.specs.Rows.{Rows, row_read};
ghost use Rattle.rows.specs.Lent.{rows_seen};
ghost use Rattle.ring.specs.Ring.{gives};
ghost use Rattle.event.specs.Event.{asks_key};
ghost use Rattle.table.specs.Table.{Finding, finding_of};
ghost use Rattle.ringplan.specs.Plan.{some};
ghost use Rattle.rules.specs.declared.Refusal.TheVariants.{LedToIdle, NoneWorking};
ghost use Rattle.rules.specs.Rules.{judged, packet as packet-done};
ghost use Rattle.answers.specs.Reacting.{state_over, replied, served};
ghost use Rattle.packets.specs.Lent.{Lent, led_of, packet_of};

use answers::Facts;
use lists::Movers;
use ranking::Pick;
use ring::Entry;
use roster::Roster;
use rows::RowView;
use rules::Refusal;
use settings::Settings;
use table::Found;

// A packet: its key, what was found for it, F of the key, and the ring's entry that was read.
#[derive(Clone, Copy)]
pub struct Asked {
    pub key: [u8; table::KEY_BYTES],
    pub found: Found,
    pub f: u32,
    pub spot: Entry,
}

// A packet: refused where the roster hasn't its stated form.
pub fn packet(asked: Asked, table: &mut [u8], rows: RowView, r: &Roster) -> Result<Facts, Refusal>
    ensures { replied result table.new (rows_seen rows.entry) r.now
        ≡ packet_of asked.key asked.found asked.f asked.spot (state_over table.old (rows_seen rows.entry) r.now) }
{
    if !roster::parts::sound(r.places(), r.held, r.settings) {
        return Err(Refusal::UnsoundRoster);
    }
    lead(asked, table, rows, r.movers(), r.settings)
}

// A packet that meets a sound roster, of which it is lent the movers. Where the key has no record,
// the server that HRW chooses is one of those that work, and 0 where none does; one that was read is refused unless it works.
fn lead(
    asked: Asked,
    table: &mut [u8],
    rows: RowView,
    movers: Movers,
    settings: Settings,
) -> Result<Facts, Refusal>
    ensures { (r : Roster) → Lent r movers.entry.servers.now movers.entry.states.now → r.settings ≡ settings
        → replied result table.new (rows_seen rows.entry) r
        ≡ led_of asked.key asked.found asked.f asked.spot (state_over table.old (rows_seen rows.entry) r) }
{
    match asked.found {
        Found::At(place) => known(place, table, movers),
        Found::Nothing(used) => {
            if settings.method == settings::HRW {
                let best = hrw::pick(movers, hash::digest(asked.f));
                if best.server == 0 {
                    return Err(Refusal::NoneWorking);
                }
                return Ok(settle(asked.key, used, best, table));
            }
            let pick = read_pick(asked.f, asked.spot, rows, settings);
            if roster::parts::state_in(movers, pick.server) != sets::WORKING {
                return Err(idle(movers));
            }
            Ok(settle(asked.key, used, pick, table))
        }
    }
}

// What methods 2 and 3 read: the row, or the ring's entry.
fn read_pick(f: u32, spot: Entry, rows: RowView, settings: Settings) -> Pick
    ensures { result ≡ cond (eqb settings.method by_row_table)
        (row_read settings.rows f (rows_seen rows.entry)) (gives spot) }
{
    if settings.method == settings::ROW_TABLE {
        return rows.read(settings.rows, f);
    }
    Pick {
        server: spot.server,
        flag: spot.track != 0,
    }
}

// A key with a record: its server, or a refusal.
fn known(place: usize, table: &[u8], movers: Movers) -> Result<Facts, Refusal>
    ensures { (key : List ℕ) (pick : Pick) (rows : Rows) (r : Roster) → Lent r movers.entry.servers.now movers.entry.states.now
        → replied result table.now rows r
        ≡ judged (asks_key 1 key) (finding_of (Found.At place)) pick (state_over table.now rows r) }
{
    let server = table::server_at(table, place);
    if roster::parts::state_in(movers, server) != sets::WORKING {
        return Err(idle(movers));
    }
    Ok(Facts {
        server,
        mark: rules::FROM_RECORD,
        reads: place,
    })
}

// The server picked, which works: it is recorded where it is unsafe and there is room.
fn settle(key: [u8; table::KEY_BYTES], used: usize, pick: Pick, table: &mut [u8]) -> Facts
    ensures { (rows : Rows) (r : Roster)
        → served result table.new rows r
        ≡ packet-done key (finding_of (Found.Nothing used)) pick (state_over table.old rows r) }
{
    let server = pick.server;
    if !pick.flag {
        return Facts {
            server,
            mark: rules::CHOSEN_SAFE,
            reads: used,
        };
    }
    if table.len() / table::RECORD_BYTES <= used {
        return Facts {
            server,
            mark: rules::NO_ROOM,
            reads: used,
        };
    }
    table::write_after(table, used, key, server);
    Facts {
        server,
        mark: rules::CHOSEN_RECORDED,
        reads: used,
    }
}

// Why a packet whose server doesn't work is refused: no server works at all, or that one doesn't.
fn idle(movers: Movers) -> Refusal
    ensures { result ≡ cond (some (in_state working movers.entry.servers.now movers.entry.states.now)) LedToIdle NoneWorking }
{
    if some_in_work(movers) {
        return Refusal::LedToIdle;
    }
    Refusal::NoneWorking
}

// Whether some server works. Only places that both lists have count.
#[tactic(auto, using(answers::proofs::Rosters::some_stated))]
fn some_in_work(movers: Movers) -> bool
    ensures { result ≡ some (in_state working movers.entry.servers.now movers.entry.states.now) }
{
    let both = movers.servers.len().min(movers.states.len());
    movers.states[..both].contains(&sets::WORKING)
}
