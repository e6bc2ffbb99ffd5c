// A roster's parts, lent: what a packet asks of the roster, without a copy of its two lists.
ghost use Rattle.std.specs.Prelude.{◌≡◌, false, cond, leb, length};
ghost use Rattle.roster.specs.Roster.{sound as sound_of, state_in};

use lists::Movers;
use sets::MOST_SERVERS;
use settings::Settings;

// Whether the roster of these parts has its stated form. Lists with fewer places than are held are none of a roster. The hint is
// for packets, each of which asks this.
#[inline]
#[tactic(auto, unfolding(crate::specs::Roster::sound))]
pub fn sound(movers: Movers, held: usize, settings: Settings) -> bool
    ensures { result ≡ cond (leb held (length movers.entry.servers.now))
        (cond (leb held (length movers.entry.states.now))
        (sound_of (record { servers = movers.entry.servers.now; states = movers.entry.states.now; held = held; settings = settings })) false) false }
{
    if held > MOST_SERVERS || held > movers.servers.len() || held > movers.states.len() {
        return false;
    }
    if !settings::valid(settings) {
        return false;
    }
    let (servers, unused_servers) = movers.servers.split_at(held);
    let (states, unused_states) = movers.states.split_at(held);
    lists::rising(servers)
        && lists::stated(states)
        && spans::all_are(unused_servers, 0)
        && spans::all_zero(unused_states)
}

// The state of a server among those held: 1 working, 2 in the horizon, 0 unknown.
// Stays (1): the rules of a packet go by the number, 0 included (`state_in`); of unsound lists it may be any byte.
pub fn state_in(movers: Movers, server: u32) -> u8
    ensures { result ≡ state_in server movers.entry.servers.now movers.entry.states.now }
{
    match lists::place(movers.servers, server) {
        Some(p) if p < movers.states.len() => movers.states[p],
        _ => 0,
    }
}
