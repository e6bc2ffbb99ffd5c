// Test program: captures on standard input, each behind its length in four bytes. Prints what each comes to: as it is, every
// beginning of it, with every byte changed in every way, and handed over in pieces. Once nobody reads the lines any more the
// program ends, with the status that the signal PIPE would give.

#![tactic(auto)]

ghost use Rattle.std.specs.Prelude.{◌≤◌, ◌+◌, length, IfSome};

mod damage;
mod handing;
mod numbers;

use std::io;
use std::process::ExitCode;

// All captures of the input, one after the other.
fn each(
    output: &impl Print,
    input: &mut [u8],
    buffer: &mut [u8],
    out: &mut [u8],
) -> io::Result<()> {
    let mut at = 0;
    // Stays (3): each capture's own length says where the next one begins.
    while let Some(size) = length_at(input, at) {
        let capture = &mut input[at + 4..at + 4 + size];
        one(output, capture, buffer, out)?;
        at += 4 + size;
    }
    Ok(())
}

// The length of the capture that stands behind its length at a place, where all of it is there.
fn length_at(input: &[u8], at: usize) -> Option<usize>
    ensures { IfSome result (λ size. at + (4 + size) ≤ length input.now) }
{
    let (size, rest) = input.get(at..)?.split_first_chunk::<4>()?;
    let size = u32::from_be_bytes(*size) as usize;
    if size <= rest.len() { Some(size) } else { None }
}

// One capture.
fn one(
    output: &impl Print,
    capture: &mut [u8],
    buffer: &mut [u8],
    out: &mut [u8],
) -> io::Result<()> {
    let whole = numbers::come_to(capture, out);
    inputs::text(output, b"whole")?;
    whole.print(output)?;
    damage::damaged(output, capture, out)?;
    handing::buffers(output, capture, whole, buffer, out)
}

fn main(rt: HostRuntime) -> ExitCode {
    let mut input = [0u8; 65536];
    let mut buffer = [0u8; 2048];
    let mut out = [0u8; 16384];
    let have = inputs::read_full(&mut rt.stdin(), &mut input);
    inputs::status(each(&rt, &mut input[..have], &mut buffer, &mut out))
}
