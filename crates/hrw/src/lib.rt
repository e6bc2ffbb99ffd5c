// HRW, highest random weight: the choice over the working servers at a digest, and whether a horizon
// server outranks it. Movers are lent as the roster holds them.

#![tactic(auto)]

ghost use Rattle.std.specs.Prelude.{◌≡◌};
ghost use Rattle.sets.specs.Sets.{in_state, working, standby};
ghost use Rattle.ranking.specs.Methods.{heavier, hrw};
ghost use Rattle.ranking.specs.Ranking.{picked};
ghost use Rattle.ranking.specs.Best.{best_of, beaten};
ghost use Rattle.hash.specs.Hash.{weight};

use lists::Movers;
use ranking::{Best, ByWeight, Pick};

// The choice over the working servers, with its weight: each weight is computed once. None where no server works.
pub fn choose(movers: Movers, digest: u32) -> Option<Best>
    ensures { result ≡ best_of (hrw digest) (λ s. weight s digest) (in_state working movers.entry.servers.now movers.entry.states.now) }
{
    let mut best = None;
    for (&server, &state) in movers.servers.iter().zip(movers.states) {
        let works = state == sets::WORKING;
        if works {
            let measure = hash::weight(server, digest);
            best = Some(ranking::keep::<ByWeight>(best, Best { server, measure }));
        }
    }
    best
}

// Whether some horizon server outranks the best of the working ones.
pub fn outranked(movers: Movers, digest: u32, best: Best) -> bool
    ensures { result ≡ beaten heavier (λ s. weight s digest) best (in_state standby movers.entry.servers.now movers.entry.states.now) }
{
    movers.servers.iter().zip(movers.states).any(|(&server, &state)| {
        state == sets::STANDBY
            && ranking::heavier(
                hash::weight(server, digest),
                server,
                best.measure,
                best.server,
            )
    })
}

// What HRW gives a packet without a record: the choice over the working servers, and whether some
// horizon server outranks it.
pub fn pick(movers: Movers, digest: u32) -> Pick
    ensures { result ≡ picked (hrw digest) (in_state working movers.entry.servers.now movers.entry.states.now)
        (in_state standby movers.entry.servers.now movers.entry.states.now) }
{
    match choose(movers, digest) {
        Some(best) => Pick {
            server: best.server,
            flag: outranked(movers, digest, best),
        },
        None => Pick {
            server: 0,
            flag: false,
        },
    }
}
