// Rounds of packets, with a change of the movers behind each: how many records are used, who found no room, who was led elsewhere.
use crate::door::{Door, MOVERS};
use crate::numbers::Numbers;
use std::io;

// A draw's line: working, horizon, sessions; then so many rounds, a change behind each, and of each round four numbers: used records,
// sessions that found no room, sessions that moved although their mover worked, sessions whose mover had left work.
fn line<F: Fn(&mut Door, usize)>(
    output: &impl Print,
    door: &mut Door,
    last: &mut [Option<u32>],
    working: usize,
    rounds: usize,
    change: F,
) -> io::Result<()>
    requires { F.IsAlwaysCallable change }
{
    let horizon = MOVERS.saturating_sub(working);
    let sessions = last.len();
    last.fill(None);
    inputs::heard(print!(output; " {working} {horizon} {sessions}"))?;
    for round in 0..rounds {
        let sent = door.round(last);
        let used = door.used();
        inputs::heard(print!(output; " {used} {sent}"))?;
        change(door, round);
    }
    inputs::text(output, b"\n")
}

// 16 movers that take turns, of which so many work: a line of 21 rounds for each draw of their numbers. Behind a round the mover that
// stood by longest joins, and the one that worked longest leaves work.
pub(crate) fn turns(
    output: &impl Print,
    table: &mut [u8],
    last: &mut [Option<u32>],
    working: usize,
    draws: u32,
) -> io::Result<()> {
    let mut servers = [0u32; MOVERS];
    let mut numbers = Numbers::spread();
    for _ in 0..draws {
        numbers.draw(&mut servers);
        inputs::text(output, b"turns")?;
        let mut door = Door::opened(table, servers, working);
        line(output, &mut door, last, working, 21, |door, round| {
            door.join(working % MOVERS + round % MOVERS);
            door.leave(round);
        })?;
    }
    Ok(())
}

// 14 movers at work; the two that stand by join one after the other, and nobody leaves.
pub(crate) fn joins(
    output: &impl Print,
    table: &mut [u8],
    last: &mut [Option<u32>],
) -> io::Result<()> {
    let mut servers = [0u32; MOVERS];
    Numbers::spread().draw(&mut servers);
    inputs::text(output, b"joins")?;
    let mut door = Door::opened(table, servers, 14);
    line(
        output,
        &mut door,
        last,
        14,
        3,
        |door, round| door.join(14 + round % MOVERS),
    )
}
