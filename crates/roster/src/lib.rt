// The roster of servers: handed in by value, handed back changed.

#![tactic(auto)]

ghost use Rattle.std.specs.Prelude.{◌≡◌, min};
ghost use Rattle.roster.specs.Roster.{sound as sound_of, state_of, added_working, removed_working, added_horizon, removed_horizon, empty_roster, with_state, most_servers, held_servers, held_states};

use lists::Movers;
use sets::{MOST_SERVERS, STANDBY, WORKING};
use settings::Settings;

pub mod parts;

// At most 64 servers in rising order, each working (1) or in the horizon (2); unused places zero.
// Stays (1): any byte may be lent as a state or a method; refusal 11 (`sound`) is for the wrong ones, which enums couldn't hold.
// Stays (6): `balancer::event` takes this type, `in_state` is of two lists, and refusal 11 also reads the places behind those held.
#[derive(Clone, Copy)]
pub struct Roster {
    pub servers: [u32; MOST_SERVERS],
    pub states: [u8; MOST_SERVERS],
    pub held: usize,
    pub settings: Settings,
}

impl Roster {
    // All 64 places, in use or not.
    pub fn places(&self) -> Movers<'_>
        ensures { (result.servers.now ≡ self.now.servers) × (result.states.now ≡ self.now.states) }
    {
        Movers {
            servers: &self.servers,
            states: &self.states,
        }
    }

    // The servers held, each with its state: the places in use.
    pub fn movers(&self) -> Movers<'_>
        ensures { (result.servers.now ≡ held_servers self.now) × (result.states.now ≡ held_states self.now) }
    {
        let n = in_use(self.held);
        Movers {
            servers: &self.servers[..n],
            states: &self.states[..n],
        }
    }
}

// The roster of a fresh start.
pub fn empty() -> Roster
    ensures { result ≡ empty_roster }
{
    Roster {
        servers: [0u32; MOST_SERVERS],
        states: [0u8; MOST_SERVERS],
        held: 0,
        settings: settings::fresh(),
    }
}

// Whether a roster has its stated form; one that hasn't is refused with 11.
pub fn sound(r: Roster) -> bool
    ensures { result ≡ sound_of r }
{
    parts::sound(r.places(), r.held, r.settings)
}

// The state of a server: 1 working, 2 in the horizon, 0 unknown.
// Stays (1): the rules of the roster's changes go by the number, 0 included (`state_of`); of an unsound roster it may be any byte.
pub fn state_of(r: Roster, server: u32) -> u8
    ensures { result ≡ state_of server r }
{
    parts::state_in(r.movers(), server)
}

// A server of the horizon brought into work.
pub fn add_working(r: Roster, server: u32) -> Roster
    ensures { result ≡ added_working server r }
{
    with_state(r, server, WORKING)
}

// A server taken out of work, straight to the horizon.
pub fn remove_working(r: Roster, server: u32) -> Roster
    ensures { result ≡ removed_working server r }
{
    with_state(r, server, STANDBY)
}

// A new server taken into the horizon, in its rising place.
#[tactic(auto, unfolding(crate::specs::Roster::added_horizon))]
pub fn add_horizon(r: Roster, server: u32) -> Roster
    ensures { result ≡ added_horizon server r }
{
    if r.held >= MOST_SERVERS {
        return r;
    }
    let p = lists::before(&r.servers[..r.held], server);
    let mut next = Roster {
        held: r.held + 1,
        ..r
    };
    lists::push(&mut next.servers[p..=r.held], server);
    lists::push(&mut next.states[p..=r.held], STANDBY);
    next
}

// A server of the horizon taken off the roster; the freed place is zero.
pub fn remove_horizon(r: Roster, server: u32) -> Roster
    ensures { result ≡ removed_horizon server r }
{
    let n = in_use(r.held);
    let Some(p) = lists::place(&r.servers[..n], server) else {
        return r;
    };
    let mut next = Roster {
        held: r.held - 1,
        ..r
    };
    spans::close_with(&mut next.servers[p..n], 1, 0);
    spans::close(&mut next.states[p..n], 1);
    next
}

// The number of places in use: those held, of a roster that claims more than 64 all.
pub fn in_use(held: usize) -> usize
    ensures { result ≡ min held most_servers }
{
    held.min(MOST_SERVERS)
}

// The roster with a held server's state set.
fn with_state(mut r: Roster, server: u32, state: u8) -> Roster
    ensures { result ≡ with_state server state r }
{
    if let Some(p) = lists::place(&r.servers[..in_use(r.held)], server) {
        r.states[p] = state;
    }
    r
}
