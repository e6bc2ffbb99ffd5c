// For programs: standard input as a whole, words and numbers on an output that may have no reader any more, and the status to end with.

#![tactic(auto)]

ghost use Rattle.std.specs.Prelude.{◌≡◌, ◌≤◌, ◌↔◌, length, IsErrOf, OnOk, OnErr};
ghost use Rattle.std.specs.IoError.{error_kind};
ghost use Rattle.std.specs.Process.{exit_status};

use std::io;
use std::io::{Error, ErrorKind, Read};
use std::process::ExitCode;

// Reads until the buffer is full, the input ends or a read fails, and says how many bytes stand at the buffer's front then.
pub fn read_full(input: &mut impl Read, buffer: &mut [u8]) -> usize
    ensures { result ≤ length buffer.new }
{
    let mut done = 0;
    // Stays (3): a turn adds what one read brings, which no iterator counts.
    while done < buffer.len() {
        let got = input.read(&mut buffer[done..]).unwrap_or(0);
        if got == 0 {
            break;
        }
        done += got;
    }
    done
}

// What a write came to: its error only where nobody reads any more. Text that is not taken for another reason, as by a full
// disk, is lost.
pub fn heard(written: io::Result<()>) -> io::Result<()>
    ensures { (e : Error) → IsErrOf result e ↔ (IsErrOf written e × (error_kind e ≡ ErrorKind.BrokenPipe)) }
{
    match written {
        Err(e) if e.kind() == ErrorKind::BrokenPipe => Err(e),
        _ => Ok(()),
    }
}

// Writes words. It fails only where nobody reads them any more.
pub fn text(output: &impl Print, words: &[u8]) -> io::Result<()>
    ensures { (e : Error) → IsErrOf result e → error_kind e ≡ ErrorKind.BrokenPipe }
{
    heard(output.write_all(words))
}

// Writes a space and a number. It fails only where nobody reads them any more.
pub fn number(output: &impl Print, n: u64) -> io::Result<()>
    ensures { (e : Error) → IsErrOf result e → error_kind e ≡ ErrorKind.BrokenPipe }
{
    heard(print!(output; " {n}"))
}

// The status with which a program ends: that of the signal PIPE where nobody reads what it writes.
pub fn status(written: io::Result<()>) -> ExitCode
    ensures read { OnOk written (exit_status result ≡ 0) }
    ensures unread { OnErr written (exit_status result ≡ 141) }
{
    match written {
        Ok(()) => ExitCode::SUCCESS,
        Err(_) => ExitCode::from(141),
    }
}
