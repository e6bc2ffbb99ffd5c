// Does events on lent buffers and rosters, whoever wrote them. The file stdin has a line for each event: a name; then a colon, where all
// that is lent starts afresh, or an equals sign, where it is as the line before left it (before the first line it is all zeros); then
// steps, each with a comma behind it, which write what is lent. Printed are the name and the colon, then refusal, server, mark, reads, the
// used records afterwards, and the digests of table, rows, flags, ring and roster. What must be printed stands in the file stdout, and
// comes from the independent model of tests/model. Once nobody reads the lines any more the program ends, with the status that the signal
// PIPE would give.

#![tactic(auto)]

ghost use Rattle.std.specs.Prelude.{◌≡◌, length};

mod digests;
mod given;
mod lend;
mod script;

use given::Given;
use lend::Buffers;
use script::{Deed, Step};
use std::io;
use std::process::ExitCode;

// What the lines write: the buffers, what is given beside them, and the step that is being read.
#[derive(Drop)]
struct Session {
    buffers: Buffers,
    given: Given,
    step: Step,
}

impl Session {
    // What a character does: a colon starts afresh, with zeros in table and flags, 9 in the rows and entries that name 9; a comma or a
    // space behind a number writes it; a line's end does the event.
    fn turn(&mut self, output: &impl Print, c: u8) -> io::Result<()> {
        match self.step.done(c) {
            Some(Deed::Event) => self.given = self.buffers.act(output, self.given)?,
            Some(Deed::Afresh) => {
                self.buffers.fill(9);
                self.given = Given::blank(4294967295, 9);
            }
            Some(Deed::Write { op, at, value }) => self.write(op, at, value),
            None => (),
        }
        Ok(())
    }

    // A number is written: a byte of the table or of the flags, a row, or what is given beside them.
    fn write(&mut self, op: u8, at: usize, value: u32) {
        match op {
            b't' => lend::put(&mut self.buffers.table, at, (value % 256) as u8),
            b'f' => lend::put(&mut self.buffers.flags, at, (value % 256) as u8),
            b'c' => lend::put(&mut self.buffers.rows, at, value),
            _ => self.given = self.given.changed(op, at, value),
        }
    }

    // Every character.
    fn run(&mut self, output: &impl Print, text: &[u8]) -> io::Result<()> {
        for &c in text {
            self.step.name(output, c)?;
            self.turn(output, c)?;
            self.step = self.step.read(c);
        }
        Ok(())
    }
}

// Room for a million characters.
fn room() -> [u8; 1048576]
    ensures { 1048576 ≡ length result }
{
    [0u8; 1048576]
}

// The lines from standard input, on buffers as long as any of them needs.
fn main(rt: HostRuntime) -> ExitCode {
    let mut session = Session {
        buffers: Buffers {
            table: [0; 65540],
            rows: [0; 4097],
            flags: [0; 4097],
        },
        given: Given::blank(0, 0),
        step: Step::Name,
    };
    let mut text = room();
    let n = inputs::read_full(&mut rt.stdin(), &mut text);
    inputs::status(session.run(&rt, &text[..n]))
}
