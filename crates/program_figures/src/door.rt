// A front door under HRW with the balancer's own parts: a table, and the choice with its safety. Every session sends a packet in
// turn, and movers join and leave between such rounds.
use crate::keys::Stream;
use crate::numbers;
use lists::Movers;
use sets::{STANDBY, WORKING};
use std::fmt;
use table::{Found, KEY_BYTES, RECORD_BYTES};

// How many movers a door has.
pub(crate) const MOVERS: usize = 16;

// What a round of packets came to: sessions that found no room, sessions led elsewhere although their last mover works, and sessions
// led elsewhere because it doesn't.
#[derive(Clone, Copy, Default)]
pub struct Sent {
    no_room: u32,
    moved: u32,
    left: u32,
}

// Where a packet goes, and whether it should have been recorded and found no room.
#[derive(Clone, Copy)]
struct Led {
    server: u32,
    no_room: bool,
}

// A table, and the movers' numbers and states.
#[derive(Drop)]
pub struct Door<'a> {
    table: &'a mut [u8],
    servers: [u32; MOVERS],
    states: [u8; MOVERS],
}

impl<'a> Door<'a> {
    // A door with no records, at which the movers in the first places work.
    pub(crate) fn opened(table: &'a mut [u8], servers: [u32; MOVERS], working: usize) -> Door<'a> {
        let mut states = [0u8; MOVERS];
        numbers::states(&mut states, working);
        table::start(table);
        Door {
            table,
            servers,
            states,
        }
    }

    // How many records are used.
    pub(crate) fn used(&self) -> usize {
        table::used(self.table)
    }

    // The movers at the door.
    fn movers(&self) -> Movers<'_> {
        Movers {
            servers: &self.servers,
            states: &self.states,
        }
    }

    // A packet of a key.
    fn packet(&mut self, key: [u8; KEY_BYTES]) -> Led {
        match table::find(self.table, key) {
            Found::At(place) => Led {
                server: table::server_at(self.table, place),
                no_room: false,
            },
            Found::Nothing(used) => self.chosen(key, used),
        }
    }

    // A packet of a key without a record, where so many records are used.
    fn chosen(&mut self, key: [u8; KEY_BYTES], used: usize) -> Led {
        let pick = hrw::pick(self.movers(), hash::digest(hash::fnv(&key)));
        let full = used >= self.table.len() / RECORD_BYTES;
        if pick.flag {
            table::write_after(self.table, used, key, pick.server);
        }
        Led {
            server: pick.server,
            no_room: pick.flag && full,
        }
    }

    // Whether a server works.
    fn works(&self, server: u32) -> bool {
        self.servers
            .iter()
            .zip(self.states.iter())
            .any(|(held, state)| *held == server && *state == WORKING)
    }

    // Every session sends a packet; where each one went stands in `last`.
    pub(crate) fn round(&mut self, last: &mut [Option<u32>]) -> Sent {
        let mut sent = Sent::default();
        let mut keys = Stream::of_keys();
        for session in last.iter_mut() {
            let led = self.packet(keys.bytes());
            let works = session.is_some_and(|mover| self.works(mover));
            sent.add(led, *session, works);
            *session = Some(led.server);
        }
        sent
    }

    // The mover at a place goes to work.
    pub(crate) fn join(&mut self, place: usize) {
        self.states[place % MOVERS] = WORKING;
    }

    // The mover at a place leaves work for the horizon, and every record that names it goes.
    pub(crate) fn leave(&mut self, place: usize) {
        self.states[place % MOVERS] = STANDBY;
        table::remove_server(self.table, self.servers[place % MOVERS]);
    }
}

impl Sent {
    // One packet more, of a session that was at a mover before, or nowhere; whether that mover works.
    fn add(&mut self, led: Led, before: Option<u32>, works: bool) {
        let moved = works && before != Some(led.server);
        let left = before.is_some() && !works;
        self.no_room = self.no_room.wrapping_add(u32::from(led.no_room));
        self.moved = self.moved.wrapping_add(u32::from(moved));
        self.left = self.left.wrapping_add(u32::from(left));
    }
}

impl fmt::Display for Sent {
    fn fmt<W: fmt::Write>(&self, f: &mut fmt::Formatter<W>) -> fmt::Result {
        write!(f, "{} {} {}", self.no_room, self.moved, self.left)
    }
}
