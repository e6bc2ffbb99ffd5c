// Rings planned, and what a key's point reads of them.
use crate::say;
use crate::script::Step;
use lists::Movers;
use ring::Entry;
use std::io;

// An entry.
fn entry(output: &impl Print, e: Entry) -> io::Result<()> {
    say::numbers(
        output,
        &[
            u64::from(e.position),
            u64::from(e.server),
            u64::from(e.track),
        ],
    )
}

// The first n entries of a plan, which are in use.
fn entries(output: &impl Print, plan: &[Entry], n: usize) -> io::Result<()> {
    for &e in plan.iter().take(n) {
        entry(output, e)?;
    }
    Ok(())
}

// What a key with a given point reads: the index of the first of n entries whose position is not below the point, else of the first entry;
// and the entry there.
fn key(output: &impl Print, plan: &[Entry], n: usize, point: u32) -> io::Result<()> {
    let at = plan.iter().take(n).position(|e| point <= e.position);
    let i = at.unwrap_or(0);
    inputs::number(output, i as u64)?;
    match plan.get(i) {
        Some(&e) => entry(output, e),
        None => Ok(()),
    }
}

// What a step shows of the ring: its entries, or what a key's point reads.
pub(crate) fn show(output: &impl Print, movers: Movers, s: Step) -> io::Result<()> {
    let held = movers.servers.len();
    match s.word {
        Some(b'e') => entries(output, &ringplan::plan(movers), held),
        Some(b'k') => key(output, &ringplan::plan(movers), held, s.b),
        _ => Ok(()),
    }
}
