// Settings, and rosters as servers come and go, at the limit of 64, and damaged.
use crate::say;
use crate::script::{self, Step};
use roster::Roster;
use settings::Settings;
use std::io;

// The first n of the servers 10, 20, 30, .. taken into the horizon.
fn up_to(n: u32) -> Roster {
    (0..n).fold(roster::empty(), |r, i| {
        roster::add_horizon(r, (i % 1000 + 1) * 10)
    })
}

// The settings of two numbers.
fn settings_of(method: u32, rows: u32) -> Settings {
    Settings {
        method: (method % 256) as u8,
        rows: (rows % 65536) as u16,
    }
}

// What a step does to the roster: horizon, work, rest, leave, upto; or, written by someone else, count, method, place or state.
fn changed(mut r: Roster, s: Step) -> Roster {
    let Step { word, a, b } = s;
    match word {
        Some(b'h') => return roster::add_horizon(r, b),
        Some(b'w') => return roster::add_working(r, b),
        Some(b'r') => return roster::remove_working(r, b),
        Some(b'l') => return roster::remove_horizon(r, b),
        Some(b'u') => return up_to(b),
        Some(b'c') => r.held = b as usize,
        Some(b'm') => r.settings = settings_of(a, b),
        Some(b'p') => script::poke(&mut r.servers, a as usize, b),
        Some(b's') => script::poke(&mut r.states, a as usize, (b % 256) as u8),
        _ => (),
    }
    r
}

// The number held, 1 for a sound roster, 1 for valid settings, and a server's state.
fn shown(output: &impl Print, r: Roster, server: u32) -> io::Result<()> {
    let sound = u64::from(roster::sound(r));
    let valid = u64::from(settings::valid(r.settings));
    let state = u64::from(roster::state_of(r, server));
    inputs::text(output, b":")?;
    say::numbers(output, &[r.held as u64, sound, valid, state])
}

// A step is done. At a line's end the outcome is printed, with the state of the last number; the next line starts anew.
pub(crate) fn step(output: &impl Print, r: Roster, s: Step, c: u8) -> io::Result<Roster> {
    let next = changed(r, s);
    if c != b'\n' {
        return Ok(next);
    }
    shown(output, next, s.b)?;
    Ok(roster::empty())
}
