// The benchmark's program: runs packets in memory through the balancer and prints a checksum of all replies. Its words are
//     METHOD SERVERS HORIZON RECORDS PACKETS CHANGES
// SERVERS are held, of which the last HORIZON stay in the horizon (method 3: 4,096 rows). Packets of new keys come until
// RECORDS records are used, then PACKETS packets of those keys, then CHANGES times a server goes to work and leaves it.
// Behind each of the three parts it prints a line: the part's name, the checksum of all replies so far, used records, keys
// sent, replies that were refused. bench/twin.c says the same lines. Once nobody reads them any more it ends, with the
// status that the signal PIPE would give.

#![tactic(auto)]

mod arguments;
mod keys;
mod work;

use ring::Entry;
use std::io;
use std::process::ExitCode;
use work::{Plan, Work};

// The most events that are done.
const MOST_EVENTS: u64 = 1000000000000;

// Each event is done and heard, until no more comes.
fn run(output: &impl Print, plan: &Plan) -> io::Result<()> {
    let mut table = [0u8; table::MOST_TABLE_BYTES];
    let mut rows = [0u32; rows::ROW_PLACES];
    let mut flags = [0u8; rows::ROW_PLACES];
    let mut ring = [Entry::default(); ring::RING_PLACES];
    let mut roster = balancer::start(&mut table, &rows, &flags, &ring, roster::empty()).roster;
    let mut work = Work::begun();
    for _ in 0..MOST_EVENTS {
        let Some(record) = work.event(plan) else {
            break;
        };
        let out = balancer::event(
            &record, &mut table, &mut rows, &mut flags, &mut ring, roster,
        );
        roster = out.roster;
        let over = work.hear(plan, out.reply);
        if !over.is_empty() {
            work.report(output, over)?;
        }
    }
    Ok(())
}

// What to write where the words can't be done.
const USAGE: &[u8] =
    b"usage: bench METHOD SERVERS HORIZON RECORDS PACKETS CHANGES (METHOD 1 to 3, SERVERS up to 64, HORIZON below SERVERS, RECORDS up to 3276)\n";

fn main(rt: HostRuntime) -> ExitCode {
    inputs::status(match arguments::plan(&rt) {
        Some(plan) => run(&rt, &plan),
        None => inputs::heard(rt.stderr().write_all(USAGE)),
    })
}
