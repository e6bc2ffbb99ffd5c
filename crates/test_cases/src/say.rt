// Numbers and bytes on standard output.
use std::io;

// How many bytes of a table stand together.
const RECORD_BYTES: usize = 20;

// Numbers in decimal, each behind a space.
pub(crate) fn numbers(output: &impl Print, all: &[u64]) -> io::Result<()> {
    for &n in all {
        inputs::number(output, n)?;
    }
    Ok(())
}

// A record's bytes in hexadecimal.
fn record(output: &impl Print, bytes: &[u8]) -> io::Result<()> {
    for b in bytes {
        inputs::heard(print!(output; "{b:02x}"))?;
    }
    Ok(())
}

// Bytes record by record, each behind a space.
pub(crate) fn records(output: &impl Print, all: &[u8]) -> io::Result<()> {
    for bytes in all.chunks(RECORD_BYTES) {
        inputs::text(output, b" ")?;
        record(output, bytes)?;
    }
    Ok(())
}
