// The balancer with its memory, and the lines that answer what it is asked.
use crate::blocks::LAST;
use crate::lines::{Line, Text};
use event::EVENT_BYTES;
use ring::Entry;
use roster::Roster;
use std::io;

// The balancer's table, rows, flags, ring and roster; the answers that are still to be written, and how many events were done.
#[derive(Drop)]
pub struct Session {
    table: [u8; table::MOST_TABLE_BYTES],
    rows: [u32; rows::ROW_PLACES],
    flags: [u8; rows::ROW_PLACES],
    ring: [Entry; ring::RING_PLACES],
    roster: Roster,
    text: Text,
    done: u64,
}

impl Session {
    // A fresh start.
    pub(crate) fn started() -> Session {
        let mut table = [0u8; table::MOST_TABLE_BYTES];
        let rows = [0u32; rows::ROW_PLACES];
        let flags = [0u8; rows::ROW_PLACES];
        let ring = [Entry::default(); ring::RING_PLACES];
        let roster = balancer::start(&mut table, &rows, &flags, &ring, roster::empty()).roster;
        Session {
            table,
            rows,
            flags,
            ring,
            roster,
            text: Text::empty(),
            done: 0,
        }
    }

    // Whether the last event was done.
    pub(crate) fn is_over(&self) -> bool {
        self.done >= LAST
    }

    // The records of a block are answered, and the answers are written.
    pub(crate) fn answer_block(&mut self, output: &impl Print, records: &[u8]) -> io::Result<()> {
        for record in records.chunks(EVENT_BYTES) {
            if self.is_over() {
                break;
            }
            self.answer(output, record)?;
        }
        self.text.write_out(output)
    }

    // A record's event is done, and a line says what came of it.
    fn answer(&mut self, output: &impl Print, record: &[u8]) -> io::Result<()> {
        let out = balancer::event(
            record,
            &mut self.table,
            &mut self.rows,
            &mut self.flags,
            &mut self.ring,
            self.roster,
        );
        self.roster = out.roster;
        self.done = self.done.saturating_add(1);
        let line = Line {
            number: self.done,
            kind: record.first().copied().unwrap_or(0),
            reply: out.reply.into(),
            used: table::used(&self.table),
        };
        self.text.add(output, line)
    }
}
