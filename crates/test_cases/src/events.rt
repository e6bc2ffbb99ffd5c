// Event records, taken apart.
use crate::say;
use event::{Event, Fault};
use std::io;

// What a record asks, in numbers: refusal, kind, server, method, rows. A faulty one asks nothing.
fn figures(read: Result<Event, Fault>) -> [u64; 5] {
    match read {
        Ok(Event::Packet(_)) => [0, 1, 0, 0, 0],
        Ok(Event::End(_)) => [0, 2, 0, 0, 0],
        Ok(Event::AddWorking(server)) => [0, 3, u64::from(server), 0, 0],
        Ok(Event::RemoveWorking(server)) => [0, 4, u64::from(server), 0, 0],
        Ok(Event::AddHorizon(server)) => [0, 5, u64::from(server), 0, 0],
        Ok(Event::RemoveHorizon(server)) => [0, 6, u64::from(server), 0, 0],
        Ok(Event::Configure(s)) => [0, 7, 0, u64::from(s.method), u64::from(s.rows)],
        Err(Fault::Malformed) => [1, 0, 0, 0, 0],
        Err(Fault::ServerZero) => [2, 0, 0, 0, 0],
    }
}

// What a record asks; a packet or an end with its key.
pub(crate) fn asked(output: &impl Print, record: &[u8]) -> io::Result<()> {
    let read = event::read(record);
    say::numbers(output, &figures(read))?;
    match read {
        Ok(Event::Packet(key) | Event::End(key)) => say::records(output, &key),
        _ => Ok(()),
    }
}
