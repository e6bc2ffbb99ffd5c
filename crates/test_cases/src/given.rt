// Steps of the methods, for given servers: side by side with their states in the first places of a roster, in any order.
use crate::rowsets::RowSet;
use crate::script::Step;
use crate::{picks, rings};
use roster::Roster;
use sets::{STANDBY, WORKING};
use std::io;

// One server more, working or in the horizon, where there is room.
fn with(mut r: Roster, server: u32, state: u8) -> Roster {
    let at = r.held;
    if at < r.servers.len() {
        r.servers[at] = server;
        r.states[at] = state;
        r.held = at + 1;
    }
    r
}

// 64 servers, the multiples of a step modulo 2^32, working and in the horizon by turns.
fn many(step: u32) -> Roster {
    (1..65u32).fold(roster::empty(), |r, n| {
        let state = if n % 2 == 1 { WORKING } else { STANDBY };
        with(r, step.wrapping_mul(n), state)
    })
}

// The servers after a step: none, one more working or in the horizon, or many.
fn changed(r: Roster, s: Step) -> Roster {
    match s.word {
        Some(b'n') => roster::empty(),
        Some(b'w') => with(r, s.b, WORKING),
        Some(b'h') => with(r, s.b, STANDBY),
        Some(b'm') => many(s.b),
        _ => r,
    }
}

// A step is done, and what it shows of rows, picks and ring is printed. The servers from then on.
pub(crate) fn step(
    output: &impl Print,
    rows: &mut RowSet,
    r: Roster,
    s: Step,
) -> io::Result<Roster> {
    let next = changed(r, s);
    let movers = next.movers();
    rows.change(movers, s);
    rows.show(output, s)?;
    picks::show(output, movers, s)?;
    rings::show(output, movers, s)?;
    Ok(next)
}
