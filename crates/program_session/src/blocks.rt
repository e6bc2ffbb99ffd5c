// Records of 16 bytes out of blocks of input.
ghost use Rattle.std.specs.Prelude.{◌-◌, ◌≤◌};

use crate::session::Session;
use event::EVENT_BYTES;
use std::io;
use std::io::Read;

// The last event that is done.
pub(crate) const LAST: u64 = 1000000000000;

// The longest block.
const BLOCK_BYTES: usize = 65536;

// What the input has is answered, block by block, until it ends. It fails where nobody reads the answers any more.
pub(crate) fn answer_all(
    input: &mut impl Read,
    output: &impl Print,
    session: &mut Session,
) -> io::Result<()> {
    let mut block = [0u8; BLOCK_BYTES];
    let mut kept = 0;
    for _ in 0..LAST {
        let have = fill(input, &mut block, kept);
        if have == 0 {
            break;
        }
        let whole = whole(have);
        session.answer_block(output, &block[..whole])?;
        if session.is_over() {
            break;
        }
        block.copy_within(whole..have, 0);
        kept = have - whole;
    }
    Ok(())
}

// How many of these bytes are whole records; all where they are less than one, since nothing comes behind them.
fn whole(have: usize) -> usize
    ensures most { result ≤ have }
    ensures rest { have - result ≤ 16 }
{
    if have < EVENT_BYTES {
        return have;
    }
    have - have % EVENT_BYTES
}

// Reads behind the first `kept` bytes until there is a record or the input ends, and says how many bytes there are then.
fn fill(input: &mut impl Read, block: &mut [u8; BLOCK_BYTES], kept: usize) -> usize
    requires { kept ≤ 16 }
    ensures { result ≤ 65536 }
{
    let mut have = kept;
    // Stays (3): a turn adds what one read brings, which no iterator counts.
    while have < EVENT_BYTES {
        let got = input.read(&mut block[have..]).unwrap_or(0);
        if got == 0 {
            break;
        }
        have += got;
    }
    have
}
