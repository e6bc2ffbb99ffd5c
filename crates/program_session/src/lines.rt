// A line for each event, and the text that they make.
ghost use Rattle.std.specs.Prelude.{List, ℕ, take, ◌≤◌};

use answers::ReplyNumbers;
use std::fmt::Write;
use std::marker::Model;
use std::{fmt, io};

// The longest text.
const TEXT_BYTES: usize = 65536;

// More than a line has.
const LINE_BYTES: usize = 160;

// What a line says: an event's number, byte 0, the reply's numbers, and the used records afterwards.
#[derive(Clone, Copy)]
pub struct Line {
    pub number: u64,
    pub kind: u8,
    pub reply: ReplyNumbers,
    pub used: usize,
}

impl fmt::Display for Line {
    fn fmt<W: fmt::Write>(&self, f: &mut fmt::Formatter<W>) -> fmt::Result {
        let Line {
            number,
            kind,
            reply,
            used,
        } = *self;
        let ReplyNumbers {
            refusal,
            server,
            mark,
            reads,
        } = reply;
        writeln!(
            f,
            "{number} {kind} {refusal} {server} {mark} {reads} {used}"
        )
    }
}

// Text that is still to be written, at the front of its bytes.
#[derive(Drop)]
pub struct Text {
    bytes: [u8; TEXT_BYTES],
    filled: usize,
}

impl Model for Text {
    ghost Value = { List ℕ };

    ghost view = { λ text. take text.filled text.bytes };

    ghost invariant = { λ text. text.filled ≤ 65536 };
}

impl Text {
    // No text.
    pub(crate) fn empty() -> Text {
        Text {
            bytes: [0; TEXT_BYTES],
            filled: 0,
        }
    }

    // Puts a line behind the text. Text that has no room for it is written first.
    pub(crate) fn add(&mut self, output: &impl Print, line: Line) -> io::Result<()> {
        if self.filled > TEXT_BYTES - LINE_BYTES {
            self.write_out(output)?;
        }
        let _ = write!(self, "{line}");
        Ok(())
    }

    // Writes the text. It fails only where nobody reads it any more.
    pub(crate) fn write_out(&mut self, output: &impl Print) -> io::Result<()> {
        let filled = self.filled;
        self.filled = 0;
        inputs::text(output, &self.bytes[..filled])
    }
}

impl Write for Text {
    // Words that have no room are left out.
    fn write_str(&mut self, words: &str) -> fmt::Result {
        let free = &mut self.bytes[self.filled..];
        let Some(place) = free.get_mut(..words.len()) else {
            return Err(fmt::Error);
        };
        place.copy_from_slice(words.as_bytes());
        self.filled += words.len();
        Ok(())
    }
}
