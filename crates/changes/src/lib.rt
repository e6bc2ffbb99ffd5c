// The events that change table or roster: ends, the four roster changes, configure.

#![tactic(auto)]

ghost use Rattle.std.specs.Prelude.{◌≡◌, List, ℕ};
ghost use Rattle.ranking.specs.declared.Pick.{Pick};
ghost use Rattle.event.specs.Event.{request_by};
ghost use Rattle.event.specs.declared.Event.TheVariants.{End, AddWorking, RemoveWorking, AddHorizon, RemoveHorizon, Configure};
ghost use Rattle.roster.specs.Roster.{working_set, horizon};
ghost use Rattle.rows.specs.Rows.{Rows, filled};
ghost use Rattle.rows.specs.Lent.{rows_in, SameLists};
ghost use Rattle.table.specs.Table.{Finding, finding_of};
ghost use Rattle.rules.specs.Rules.{changed, judged};
ghost use Rattle.answers.specs.Reacting.{state_over, done_as, settled, served};

use answers::{Done, Facts};
use roster::Roster;
use rows::RowTable;
use rules::Refusal;
use settings::Settings;
use table::Found;

// An end of connection: the first on the key's record half-closes it, the next takes it away.
#[tactic(auto, using(crate::proofs::ByKind::end_8, crate::proofs::ByKind::end_5, crate::proofs::ByKind::end_6))]
pub fn end(found: Found, table: &mut [u8]) -> Facts
    ensures { (key : List ℕ) (pick : Pick) (rows : Rows) (r : Roster)
        → served result table.new rows r
        ≡ judged (request_by (End key)) (finding_of found) pick (state_over table.old rows r) }
{
    match found {
        Found::At(place) => {
            if table::tag_at(table, place) == table::NEW_TAG {
                table::half_close(table, place);
                return Facts {
                    mark: rules::RECORD_HALF_CLOSED,
                    reads: place,
                    ..Facts::default()
                };
            }
            table::remove(table, place);
            Facts {
                mark: rules::RECORD_REMOVED,
                reads: place,
                ..Facts::default()
            }
        }
        Found::Nothing(used) => Facts {
            mark: rules::NOTHING_TO_REMOVE,
            reads: used,
            ..Facts::default()
        },
    }
}

// A roster change that is accepted: under method 3 the rows are filled for it, under method 2 the ring is to be drawn for it.
fn alter(roster: Roster, rows: &mut RowTable) -> Done
    ensures same { SameLists rows.old rows.new }
    ensures done { (t t₀ : List ℕ) (r₀ : Roster)
        → done_as result t (rows_in rows.new) roster
        ≡ changed roster t (state_over t₀ (rows_in rows.old) r₀) }
{
    let method = roster.settings.method;
    if method == settings::ROW_TABLE {
        fill(roster, rows);
        return answers::taken(false);
    }
    answers::taken(method == settings::RING)
}

// Fills the rows for a roster's sets.
fn fill(r: Roster, rows: &mut RowTable)
    ensures same { SameLists rows.old rows.new }
    ensures done { rows_in rows.new
        ≡ filled r.settings.rows (working_set r) (horizon r) (rows_in rows.old) }
{
    rows.fill(r.settings.rows, r.movers());
}

// Add working: refused unless the server is in the horizon.
#[tactic(auto, using(crate::proofs::ByKind::add_working_4))]
pub fn add_working(server: u32, rows: &mut RowTable, r: &mut Roster) -> Result<Done, Refusal>
    ensures same { SameLists rows.old rows.new }
    ensures done { (t : List ℕ) (found : Finding) (pick : Pick)
        → settled result t (rows_in rows.new) r.new
        ≡ judged (request_by (AddWorking server)) found pick (state_over t (rows_in rows.old) r.old) }
{
    if roster::state_of(*r, server) != sets::STANDBY {
        return Err(Refusal::NotInHorizon);
    }
    *r = roster::add_working(*r, server);
    Ok(alter(*r, rows))
}

// Remove working: refused unless the server works. Every record that names it goes.
#[tactic(auto, using(crate::proofs::ByKind::remove_working_5))]
pub fn remove_working(
    server: u32,
    table: &mut [u8],
    rows: &mut RowTable,
    r: &mut Roster,
) -> Result<Done, Refusal>
    ensures same { SameLists rows.old rows.new }
    ensures done { (found : Finding) (pick : Pick)
        → settled result table.new (rows_in rows.new) r.new
        ≡ judged (request_by (RemoveWorking server)) found pick (state_over table.old (rows_in rows.old) r.old) }
{
    if roster::state_of(*r, server) != sets::WORKING {
        return Err(Refusal::NotWorking);
    }
    table::remove_server(table, server);
    *r = roster::remove_working(*r, server);
    Ok(alter(*r, rows))
}

// Add horizon: refused where the server is held already, or where 64 are held.
#[tactic(auto, using(crate::proofs::ByKind::add_horizon_3, crate::proofs::ByKind::add_horizon_6))]
pub fn add_horizon(server: u32, rows: &mut RowTable, r: &mut Roster) -> Result<Done, Refusal>
    ensures same { SameLists rows.old rows.new }
    ensures done { (t : List ℕ) (found : Finding) (pick : Pick)
        → settled result t (rows_in rows.new) r.new
        ≡ judged (request_by (AddHorizon server)) found pick (state_over t (rows_in rows.old) r.old) }
{
    if roster::state_of(*r, server) != 0 {
        return Err(Refusal::HeldAlready);
    }
    if sets::MOST_SERVERS <= r.held {
        return Err(Refusal::RosterFull);
    }
    *r = roster::add_horizon(*r, server);
    Ok(alter(*r, rows))
}

// Stays (2): like `add_working` but for what is done to the roster; each promises `judged` of its own event, and a parameter is no plainer.
// Remove horizon: refused unless the server is in the horizon.
#[tactic(auto, using(crate::proofs::ByKind::remove_horizon_4))]
pub fn remove_horizon(server: u32, rows: &mut RowTable, r: &mut Roster) -> Result<Done, Refusal>
    ensures same { SameLists rows.old rows.new }
    ensures done { (t : List ℕ) (found : Finding) (pick : Pick)
        → settled result t (rows_in rows.new) r.new
        ≡ judged (request_by (RemoveHorizon server)) found pick (state_over t (rows_in rows.old) r.old) }
{
    if roster::state_of(*r, server) != sets::STANDBY {
        return Err(Refusal::NotInHorizon);
    }
    *r = roster::remove_horizon(*r, server);
    Ok(alter(*r, rows))
}

// Configure: refused unless roster and used part are empty. The rows it counts are zeroed.
#[tactic(auto, using(crate::proofs::ByKind::configure_10_held, crate::proofs::ByKind::configure_10_used))]
pub fn configure(
    settings: Settings,
    table: &[u8],
    rows: &mut RowTable,
    r: &mut Roster,
) -> Result<Done, Refusal>
    ensures same { SameLists rows.old rows.new }
    ensures done { (found : Finding) (pick : Pick)
        → settled result table.now (rows_in rows.new) r.new
        ≡ judged (request_by (Configure settings)) found pick (state_over table.now (rows_in rows.old) r.old) }
{
    if r.held != 0 || table::used(table) != 0 {
        return Err(Refusal::NotEmpty);
    }
    rows.clear(settings.rows);
    r.settings = settings;
    Ok(answers::taken(false))
}
