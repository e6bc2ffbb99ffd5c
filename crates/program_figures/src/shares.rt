// How many keys are recorded.
use crate::counts::Method;
use crate::numbers::Numbers;
use crate::{counts, numbers};
use lists::Movers;
use std::io;

// A line: working, horizon, method and row count; the recorded keys of each draw of spread numbers.
fn line(
    output: &impl Print,
    points: &[u32],
    servers: &mut [u32],
    working: usize,
    method: Method,
    draws: u32,
) -> io::Result<()> {
    let mut states = [0u8; sets::MOST_SERVERS];
    numbers::states(&mut states, working);
    let horizon = servers.len().saturating_sub(working);
    inputs::heard(print!(output; "share {working} {horizon} {method}"))?;
    let mut numbers = Numbers::spread();
    for _ in 0..draws {
        numbers.draw(servers);
        let movers = Movers {
            servers,
            states: &states,
        };
        let counts = counts::by(method, points, movers);
        inputs::number(output, u64::from(counts.recorded))?;
    }
    inputs::text(output, b"\n")
}

// Ten draws by each method, the third with 4,096 rows and with 256; a hundred under the ring.
fn lines(
    output: &impl Print,
    points: &[u32],
    servers: &mut [u32],
    working: usize,
) -> io::Result<()> {
    for (method, draws) in [
        (Method::Hrw, 10),
        (Method::Ring, 100),
        (Method::Rows(4096), 10),
        (Method::Rows(256), 10),
    ] {
        line(output, points, servers, working, method, draws)?;
    }
    Ok(())
}

// Several horizons: so many working servers, and so many beside them.
pub(crate) fn all(output: &impl Print, points: &[u32]) -> io::Result<()> {
    let mut servers = [0u32; sets::MOST_SERVERS];
    for (working, horizon) in [
        (8usize, 1usize),
        (8, 2),
        (8, 4),
        (8, 8),
        (14, 2),
        (16, 4),
        (32, 1),
        (32, 8),
    ] {
        lines(output, points, &mut servers[..working + horizon], working)?;
    }
    Ok(())
}
