// HRW picks, and which of two servers outranks the other.
use crate::say;
use crate::script::Step;
use lists::Movers;
use std::io;

// What HRW gives at a digest: the server, and 1 where it is unsafe.
fn pick(output: &impl Print, movers: Movers, digest: u32) -> io::Result<()> {
    let p = hrw::pick(movers, digest);
    say::numbers(output, &[u64::from(p.server), u64::from(p.flag)])
}

// The choice at a digest: 1 where there is one, the server, its weight.
fn best(output: &impl Print, movers: Movers, digest: u32) -> io::Result<()> {
    match hrw::choose(movers, digest) {
        Some(best) => say::numbers(
            output,
            &[1, u64::from(best.server), u64::from(best.measure)],
        ),
        None => say::numbers(output, &[0, 0, 0]),
    }
}

// F and the digest of the key whose 13 bytes are all the same.
fn key(output: &impl Print, byte: u8) -> io::Result<()> {
    let f = hash::fnv(&[byte; 13]);
    say::numbers(output, &[u64::from(f), u64::from(hash::digest(f))])
}

// Whether server a outranks server b: 1 by weight at D = 0, 1 by distance from point 0.
fn over(output: &impl Print, a: u32, b: u32) -> io::Result<()> {
    let heavier = ranking::heavier(hash::weight(a, 0), a, hash::weight(b, 0), b);
    let x = hash::distance(hash::position(a), 0);
    let y = hash::distance(hash::position(b), 0);
    let nearer = ranking::nearer(x, a, y, b);
    say::numbers(output, &[u64::from(heavier), u64::from(nearer)])
}

// What a step shows of HRW and of the hashes: a pick, the best, a digest, which of two is over the other, the weight of a server on the
// scales at a digest, or the gap from a point to a position.
pub(crate) fn show(output: &impl Print, movers: Movers, s: Step) -> io::Result<()> {
    let Step { word, a, b } = s;
    match word {
        Some(b'p') => pick(output, movers, b),
        Some(b'b') => best(output, movers, b),
        Some(b'd') => key(output, (b % 256) as u8),
        Some(b'o') => over(output, a, b),
        Some(b's') => inputs::number(output, u64::from(hash::weight(a, b))),
        Some(b'g') => inputs::number(output, u64::from(hash::distance(a, b))),
        _ => Ok(()),
    }
}
