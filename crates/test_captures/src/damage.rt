// A capture that is cut, or changed in one byte.
ghost use Rattle.std.specs.Prelude.{◌≡◌, ◌<◌, length};

use crate::numbers;
use crate::numbers::OFFSET;
use std::io;

// The longest capture that is cut and changed.
const SMALL: usize = 240;

// The lines for a small capture's beginnings and changed bytes.
pub(crate) fn damaged(output: &impl Print, capture: &mut [u8], out: &mut [u8]) -> io::Result<()> {
    if capture.len() > SMALL {
        return Ok(());
    }
    prefixes(output, capture, out)?;
    changed(output, capture, out)
}

// A line for each beginning of a capture.
fn prefixes(output: &impl Print, capture: &[u8], out: &mut [u8]) -> io::Result<()> {
    for n in 0..=capture.len() {
        inputs::text(output, b"prefix")?;
        inputs::number(output, n as u64)?;
        numbers::come_to(&capture[..n], out).print(output)?;
    }
    Ok(())
}

// A line for each byte of a capture: all its other values, in one digest.
fn changed(output: &impl Print, capture: &mut [u8], out: &mut [u8]) -> io::Result<()> {
    for i in 0..capture.len() {
        inputs::text(output, b"changed")?;
        inputs::number(output, i as u64)?;
        inputs::number(output, others(capture, i, out))?;
        inputs::text(output, b"\n")?;
    }
    Ok(())
}

// A byte's 255 other values, one after the other; it is then as it was.
fn others(capture: &mut [u8], i: usize, out: &mut [u8]) -> u64
    requires { i < length capture.old }
    ensures { length capture.new ≡ length capture.old }
{
    let old = capture[i];
    let mut h = OFFSET;
    for v in 1..=255 {
        capture[i] = old ^ v;
        h = numbers::come_to(capture, out).folded(h);
    }
    capture[i] = old;
    h
}
