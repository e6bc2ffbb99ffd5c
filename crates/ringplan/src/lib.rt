// The ring's entries, computed for the servers held and their states: code on plain parameters.

#![tactic(auto)]

ghost use Rattle.std.specs.Prelude.{◌≡◌, List, map, ℕ, ◌<◌, ◌≤◌, ◌^◌, length};
ghost use Rattle.hash.specs.Hash.{position as position-of, distance};
ghost use Rattle.sets.specs.Sets.{in_state, working as at-work, most_servers};
ghost use Rattle.ranking.specs.Best.{best_of};
ghost use Rattle.ranking.specs.Methods.{ring as ring-at};
ghost use Rattle.ringplan.specs.Plan.{arranged, entry_of, planned};
ghost use Rattle.ringplan.specs.Keys.{Fit, key_of, key_position, key_server};

use lists::Movers;
use ranking::{Best, ByDistance};
use ring::Entry;

// How many numbers a server can have, and a position.
const NUMBERS: u64 = 1 << 32;

// A server's place in the ring's order as one number: its position, and below it the number counted down from the highest.
fn key(server: u32) -> u64
    ensures { result ≡ key_of server }
{
    u64::from(hash::position(server)) * NUMBERS + u64::from(u32::MAX - server)
}

// The position in a key.
#[tactic(auto, unfolding(crate::specs::Keys::key_position))]
fn position_of(key: u64) -> u32
    ensures { result ≡ key_position key }
{
    (key / NUMBERS) as u32
}

// The server of a key.
#[tactic(auto, unfolding(crate::specs::Keys::key_server))]
fn server_of(key: u64) -> u32
    ensures { result ≡ key_server key }
{
    u32::MAX - (key % NUMBERS) as u32
}

// The keys of servers, 64 at most, in the ring's order, written to the front of a lent list. Each server fits the lower half of a key.
fn arrange<'a>(servers: &[u32], order: &'a mut [u64; sets::MOST_SERVERS]) -> &'a [u64]
    requires { length servers.now ≤ most_servers }
    ensures keys { result.now ≡ map key_of (arranged servers.now) }
    ensures fit { Fit servers.now }
{
    for (i, &server) in servers.iter().enumerate() {
        order[i] = key(server);
    }
    let order = &mut order[..servers.len()];
    order.sort_unstable();
    order
}

// The keys of the working ones of at most 64 servers, written to the front of a lent list.
fn working<'a>(movers: Movers, keys: &'a mut [u64; sets::MOST_SERVERS]) -> &'a [u64]
    requires { length movers.servers.now ≤ most_servers }
    ensures { result.now ≡ map key_of (in_state at-work movers.entry.servers.now movers.entry.states.now) }
{
    let mut held = 0;
    for (&server, &state) in movers.servers.iter().zip(movers.states) {
        if state == sets::WORKING {
            keys[held] = key(server);
            held += 1;
        }
    }
    &keys[..held]
}

// The working server nearest clockwise from a point, with its distance: the one that a horizon server's entry at that point names.
fn substitute(working: &[u64], point: u32) -> Option<Best>
    ensures { (w : List ℕ) → Fit w → working.now ≡ map key_of w
        → result ≡ best_of (ring-at point) (λ s. distance (position-of s) point) w }
{
    let mut best = None;
    for &key in working {
        let server = server_of(key);
        let measure = hash::distance(position_of(key), point);
        best = Some(ranking::keep::<ByDistance>(best, Best { server, measure }));
    }
    best
}

// The entry that the server of a key owns, with the keys of the working servers. Where none works the substitute is server 0.
fn entry_for(working: &[u64], key: u64) -> Entry
    ensures { (w : List ℕ) (s : ℕ) → Fit w → s < 2 ^ 32 → working.now ≡ map key_of w → key ≡ key_of s → result ≡ entry_of w s }
{
    let position = position_of(key);
    if working.contains(&key) {
        return Entry {
            position,
            server: server_of(key),
            track: 0,
        };
    }
    match substitute(working, position) {
        Some(best) => Entry {
            position,
            server: best.server,
            track: 1,
        },
        None => Entry {
            position,
            server: 0,
            track: 0,
        },
    }
}

// The plan of a ring for servers and their states, 1 working and 2 in the horizon.
pub fn plan(movers: Movers) -> [Entry; ring::RING_PLACES]
    ensures { result ≡ planned movers.entry.servers.now (in_state at-work movers.entry.servers.now movers.entry.states.now) }
{
    let mut plan = [Entry::default(); ring::RING_PLACES];
    if movers.servers.len() <= sets::MOST_SERVERS {
        let (mut keys, mut order) = ([0; sets::MOST_SERVERS], [0; sets::MOST_SERVERS]);
        let working = working(movers, &mut keys);
        let order = arrange(movers.servers, &mut order);
        for (i, &key) in order.iter().enumerate() {
            plan[i] = entry_for(working, key);
        }
    }
    plan
}
