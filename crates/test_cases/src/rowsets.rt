// Rows filled, cleared and read.
use crate::say;
use crate::script::Step;
use lists::Movers;
use rows::RowTable;
use std::io;

// Rows and their flag bytes.
#[derive(Drop)]
pub struct RowSet {
    pub chosen: [u32; 4096],
    pub flags: [u8; 4096],
}

impl RowSet {
    // What a step does to the rows: fill or clear.
    pub(crate) fn change(&mut self, movers: Movers, s: Step) {
        let RowSet { chosen, flags } = self;
        let mut rows = RowTable {
            servers: chosen,
            flags,
        };
        let count = (s.b % 65536) as u16;
        match s.word {
            Some(b'f') => rows.fill(count, movers),
            Some(b'c') => rows.clear(count),
            _ => (),
        }
    }

    // A row and its flag byte, where there is one.
    fn row(&self, output: &impl Print, r: usize) -> io::Result<()> {
        match self.chosen.iter().zip(&self.flags).nth(r) {
            Some((&server, &flag)) => pair(output, server, flag),
            None => Ok(()),
        }
    }

    // One number over the first n rows and flags.
    fn total(&self, n: usize) -> u32 {
        let front = self.chosen.iter().zip(&self.flags).take(n);
        front.fold(0, |sum, (&server, &flag)| mixed(sum, server, flag))
    }

    // What a key whose F is f reads of some rows: the server, and 1 where the flag is set.
    fn look(&mut self, output: &impl Print, count: u16, f: u32) -> io::Result<()> {
        let RowSet { chosen, flags } = self;
        let rows = RowTable {
            servers: chosen,
            flags,
        };
        let p = rows.read(count, f);
        pair(output, p.server, u8::from(p.flag))
    }

    // What a step shows of the rows: a row, the total, or a look by F.
    pub(crate) fn show(&mut self, output: &impl Print, s: Step) -> io::Result<()> {
        match s.word {
            Some(b'r') => self.row(output, s.b as usize),
            Some(b't') => inputs::number(output, u64::from(self.total(s.b as usize))),
            Some(b'l') => self.look(output, (s.a % 65536) as u16, s.b),
            _ => Ok(()),
        }
    }
}

// A server and a flag.
fn pair(output: &impl Print, server: u32, flag: u8) -> io::Result<()> {
    say::numbers(output, &[u64::from(server), u64::from(flag)])
}

// One row more in a total modulo 2^32.
fn mixed(sum: u32, server: u32, flag: u8) -> u32 {
    sum.wrapping_mul(31)
        .wrapping_add(server.wrapping_mul(2))
        .wrapping_add(u32::from(flag))
}
