// What is given beside the lent slices: an event, a ring, a roster, what is done, and how much of each buffer is lent.
use ring::Entry;
use roster::Roster;
use settings::Settings;
use test_byvalue::Tried;

// What a line does: its event, its event with a ring of 63 entries, or a start.
#[derive(Clone, Copy)]
pub enum What {
    Event,
    Short,
    Start,
}

impl From<u32> for What {
    fn from(n: u32) -> What {
        match n {
            0 => What::Event,
            1 => What::Short,
            _ => What::Start,
        }
    }
}

// The lengths say how many bytes of the event and of the table, how many rows and how many bytes of the flags are lent.
#[derive(Clone, Copy)]
pub struct Given {
    pub event: [u8; 16],
    pub lengths: [usize; 4],
    pub what: What,
    pub ring: [Entry; 64],
    pub roster: Roster,
}

impl Given {
    // An empty event and roster, a table of four records, and all entries the same: they name a server.
    pub(crate) fn blank(position: u32, server: u32) -> Given {
        let e = Entry {
            position,
            server,
            track: 0,
        };
        Given {
            event: [0; 16],
            lengths: [0, 80, 4096, 4096],
            what: What::Event,
            ring: [e; 64],
            roster: roster::empty(),
        }
    }

    // What a number of a step does: event, what is lent or done, ring (three numbers for each entry), or the roster.
    pub(crate) fn changed(mut self, op: u8, at: usize, value: u32) -> Given {
        match op {
            b'e' => {
                self.event[at % 16] = (value % 256) as u8;
                self.lengths[0] = at % 16 + 1;
            }
            b'l' => match self.lengths.get_mut(at % 5) {
                Some(length) => *length = value as usize,
                None => self.what = What::from(value),
            },
            b'r' => {
                let i = at / 3 % 64;
                self.ring[i] = entered(self.ring[i], at % 3, value);
            }
            _ => self.roster = listed(self.roster, op, at, value),
        }
        self
    }

    // What is given after an event: the ring and the roster that it handed back.
    pub(crate) fn after(self, tried: Tried) -> Given {
        let Tried { outcome, ring } = tried;
        Given {
            what: What::Event,
            ring,
            roster: outcome.roster,
            ..self
        }
    }
}

// The entry with one field written.
fn entered(e: Entry, field: usize, value: u32) -> Entry {
    match field {
        0 => Entry {
            position: value,
            ..e
        },
        1 => Entry { server: value, ..e },
        _ => Entry {
            track: (value % 256) as u8,
            ..e
        },
    }
}

// The roster with a mover, a state, the count or the settings written; the settings are the method where others have the index, and the
// rows.
fn listed(mut r: Roster, op: u8, at: usize, value: u32) -> Roster {
    match op {
        b'm' => r.servers[at % 64] = value,
        b's' => r.states[at % 64] = (value % 256) as u8,
        b'h' => r.held = value as usize,
        b'u' => {
            r.settings = Settings {
                method: (at % 256) as u8,
                rows: (value % 65536) as u16,
            }
        }
        _ => (),
    }
    r
}
