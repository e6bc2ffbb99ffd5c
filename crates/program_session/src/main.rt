// The session program: reads event records of 16 bytes on standard input and prints a line for each. It reads and writes
// in large blocks: what a read returns is answered, and the answers are written, before it reads again. Once nobody reads
// them any more it ends, with the status that the signal PIPE would give.

#![tactic(auto)]

mod blocks;
mod lines;
mod session;

use session::Session;
use std::process::ExitCode;

fn main(rt: HostRuntime) -> ExitCode {
    let mut input = rt.stdin();
    let mut session = Session::started();
    inputs::status(blocks::answer_all(&mut input, &rt, &mut session))
}
