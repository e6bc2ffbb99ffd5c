// How many keys each server gets.
use crate::counts;
use crate::counts::Method;
use crate::numbers::Numbers;
use lists::Movers;
use std::io;

// A method's line: spread or consecutive numbers, how many servers, method and row count; the keys of each server in rising order.
fn line(
    output: &impl Print,
    points: &[u32],
    servers: &[u32],
    numbers: Numbers,
    method: Method,
) -> io::Result<()> {
    let states = [sets::WORKING; sets::MOST_SERVERS];
    let held = servers.len();
    inputs::heard(print!(output; "keys {numbers} {held} {method}"))?;
    let movers = Movers {
        servers,
        states: &states,
    };
    let counts = counts::by(method, points, movers);
    for &keys in counts.at.iter().take(held) {
        inputs::number(output, u64::from(keys))?;
    }
    inputs::text(output, b"\n")
}

// As many servers as there are places, by each method, the third with 4,096 rows and with 256.
fn lines(
    output: &impl Print,
    points: &[u32],
    servers: &mut [u32],
    mut numbers: Numbers,
) -> io::Result<()> {
    numbers.draw(servers);
    for method in [
        Method::Hrw,
        Method::Ring,
        Method::Rows(4096),
        Method::Rows(256),
    ] {
        line(output, points, servers, numbers, method)?;
    }
    Ok(())
}

// 8, 16, 32 and 64 servers.
pub(crate) fn of(output: &impl Print, points: &[u32], numbers: Numbers) -> io::Result<()> {
    let mut servers = [0u32; sets::MOST_SERVERS];
    for held in [8usize, 16, 32, 64] {
        lines(output, points, &mut servers[..held], numbers)?;
    }
    Ok(())
}
