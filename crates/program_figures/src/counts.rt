// Every key led to a server by one of the methods: how many keys each server gets, and how many are to be recorded.
use lists::Movers;
use ranking::Pick;
use ring::Entry;
use rows::RowTable;
use std::fmt;

// How keys are led to servers; of rows there are so many.
#[derive(Clone, Copy)]
pub enum Method {
    Hrw,
    Ring,
    Rows(u16),
}

impl fmt::Display for Method {
    // The method's number, and the row count, which is 0 where there are none.
    fn fmt<W: fmt::Write>(&self, f: &mut fmt::Formatter<W>) -> fmt::Result {
        match self {
            Method::Hrw => f.write_str("1 0"),
            Method::Ring => f.write_str("2 0"),
            Method::Rows(rows) => write!(f, "3 {rows}"),
        }
    }
}

// How many keys the server at each place gets, and how many keys are to be recorded.
#[derive(Clone, Copy)]
pub struct Counts {
    pub at: [u32; sets::MOST_SERVERS],
    pub recorded: u32,
}

impl Counts {
    // One key more.
    fn add(&mut self, servers: &[u32], pick: Pick) {
        let place = servers.iter().position(|server| *server == pick.server);
        if let Some(count) = place.and_then(|place| self.at.get_mut(place)) {
            *count = count.wrapping_add(1);
        }
        self.recorded = self.recorded.wrapping_add(u32::from(pick.flag));
    }
}

// The keys, each led as `pick` says.
fn counted<F: Fn(u32) -> Pick>(points: &[u32], servers: &[u32], pick: F) -> Counts
    requires { F.IsAlwaysCallable pick }
{
    let mut counts = Counts {
        at: [0; sets::MOST_SERVERS],
        recorded: 0,
    };
    for &point in points {
        counts.add(servers, pick(point));
    }
    counts
}

// What an entry says.
fn said(entry: Entry) -> Pick {
    Pick {
        server: entry.server,
        flag: entry.track != 0,
    }
}

// The keys by rows.
fn by_rows(points: &[u32], movers: Movers, rows: u16) -> Counts {
    let mut chosen = [0u32; rows::ROW_PLACES];
    let mut flags = [0u8; rows::ROW_PLACES];
    let mut table = RowTable {
        servers: &mut chosen,
        flags: &mut flags,
    };
    table.fill(rows, movers);
    counted(points, movers.servers, |point| table.read(rows, point))
}

// The keys by the ring.
fn by_ring(points: &[u32], movers: Movers) -> Counts {
    let plan = ringplan::plan(movers);
    counted(
        points,
        movers.servers,
        |point| said(ring::read(&plan, movers.servers.len(), point)),
    )
}

// The keys by a method.
pub(crate) fn by(method: Method, points: &[u32], movers: Movers) -> Counts {
    match method {
        Method::Hrw => counted(
            points,
            movers.servers,
            |point| hrw::pick(movers, hash::digest(point)),
        ),
        Method::Ring => by_ring(points, movers),
        Method::Rows(rows) => by_rows(points, movers, rows),
    }
}
