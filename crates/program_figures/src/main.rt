// Figures for the planner, a line for each case; docs/FIGURES.md says what they mean, and the file stdout, worked out from document 01,
// what must be printed.
//     keys      20,000 keys, and how many of them each server gets: whether the server numbers are spread (1) or consecutive (0), how
//               many servers work, method, row count; the keys of each
//     share     the same keys: working, horizon, method, row count; how many are recorded, in each draw of server numbers
//     turns     sessions while 16 movers take turns: working, horizon, sessions; then four numbers for the first round of packets and
//               for the one after each of 20 turns: records used, sessions that found no room, sessions led elsewhere although
//               their mover worked, sessions whose mover had left work
//     joins     the same, with one standby joining after the other and nobody leaving
// Once nobody reads them any more it ends, with the status that the signal PIPE would give.

#![tactic(auto)]

mod counts;
mod door;
mod evenness;
mod keys;
mod numbers;
mod rounds;
mod shares;

use numbers::Numbers;
use std::io;
use std::process::ExitCode;

// What every one of 20,000 keys gets, by each method.
fn over_keys(output: &impl Print) -> io::Result<()> {
    let mut points = [0u32; 20000];
    keys::points(&mut points);
    evenness::of(output, &points, Numbers::spread())?;
    evenness::of(output, &points, Numbers::consecutive())?;
    shares::all(output, &points)
}

// What sessions meet, packet by packet, while movers take turns.
fn over_turns(output: &impl Print, table: &mut [u8]) -> io::Result<()> {
    let mut few = [None; 3000];
    let mut more = [None; 8000];
    for working in [15usize, 14, 12] {
        rounds::turns(output, table, &mut few, working, 10)?;
    }
    rounds::turns(output, table, &mut more, 15, 1)
}

// What so many sessions meet while movers join.
fn over_joins(output: &impl Print, table: &mut [u8]) -> io::Result<()> {
    let mut last = [None; 30000];
    for sessions in [24954usize, 26208, 28000, 30000] {
        rounds::joins(output, table, &mut last[..sessions])?;
    }
    Ok(())
}

// All figures; those of sessions at a table of 3,276 records.
fn figures(output: &impl Print) -> io::Result<()> {
    let mut table = [0u8; table::MOST_TABLE_BYTES];
    over_keys(output)?;
    over_turns(output, &mut table)?;
    over_joins(output, &mut table)
}

fn main(rt: HostRuntime) -> ExitCode {
    inputs::status(figures(&rt))
}
