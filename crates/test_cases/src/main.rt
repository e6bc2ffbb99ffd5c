// Cases of the leaves and of the methods: both sides of each limit of settings, rosters, event records and tables, and damaged ones of
// every kind; then rows filled, HRW picks and rings planned for given servers. The cases stand in the file stdin, section by section;
// each line is printed with its outcome. What must be printed stands in the file stdout, worked out from document 01. Once nobody reads
// the lines any more the program ends, with the status that the signal PIPE would give.

#![tactic(auto)]

mod events;
mod given;
mod picks;
mod rings;
mod rosters;
mod rowsets;
mod say;
mod script;
mod tables;

use roster::Roster;
use rowsets::RowSet;
use script::Step;
use std::io;
use std::process::ExitCode;

// The sections, each with what a step leaves for the next one beside the lent buffers: settings and rosters, with a roster; event records
// and tables, with how many bytes of the table are taken; the methods, with their servers.
#[derive(Clone, Copy)]
enum Section {
    Rosters(Roster),
    Tables(usize),
    Methods(Roster),
}

impl Section {
    // The beginning of the section behind this one.
    fn next(self) -> Section {
        match self {
            Section::Rosters(_) => Section::Tables(0),
            Section::Tables(_) | Section::Methods(_) => Section::Methods(roster::empty()),
        }
    }
}

// What the cases are tried on, and how far they were read: the lent buffers, the section, and the step that is being read.
#[derive(Drop)]
struct Trial {
    table: [u8; 65540],
    rows: RowSet,
    section: Section,
    step: Step,
}

impl Trial {
    // The step is done as its section does it, and its outcome printed.
    fn act(&mut self, output: &impl Print, end: u8) -> io::Result<()> {
        let s = self.step;
        self.section = match self.section {
            Section::Rosters(r) => Section::Rosters(rosters::step(output, r, s, end)?),
            Section::Tables(n) => Section::Tables(tables::step(output, &mut self.table, n, s)?),
            Section::Methods(r) => Section::Methods(given::step(output, &mut self.rows, r, s)?),
        };
        Ok(())
    }

    // What a character does: it is printed, but for an equals sign, which begins the next section; a step's end does the step before that.
    fn turn(&mut self, output: &impl Print, c: u8) -> io::Result<()> {
        if c == b'=' {
            self.section = self.section.next();
            return Ok(());
        }
        if script::ends(c) {
            self.act(output, c)?;
        }
        inputs::text(output, &[c])
    }

    // Every character.
    fn run(&mut self, output: &impl Print, cases: &[u8]) -> io::Result<()> {
        for &c in cases {
            self.turn(output, c)?;
            self.step = self.step.read(c);
        }
        Ok(())
    }
}

// The cases from standard input, on a table of 3,277 places, rows and flags that someone else wrote.
fn main(rt: HostRuntime) -> ExitCode {
    let mut trial = Trial {
        table: [255; 65540],
        rows: RowSet {
            chosen: [99; 4096],
            flags: [9; 4096],
        },
        section: Section::Rosters(roster::empty()),
        step: Step::default(),
    };
    let mut cases = [0; 65536];
    let n = inputs::read_full(&mut rt.stdin(), &mut cases);
    inputs::status(trial.run(&rt, &cases[..n]))
}
