// Lines as text: a name, then steps, each with a comma behind it. A step is a word, an index and numbers for that index and those behind
// it.
use std::io;

// What was read of a line: its name; or of a step the word's first letter; the index too; or the number for an index.
// Stays (7): each letter has one arm, where what it stands for is written; an enum between would list them twice.
#[derive(Clone, Copy)]
pub enum Step {
    Name,
    Word(Option<u8>),
    Index { op: u8, at: u32 },
    Number { op: u8, at: usize, value: u32 },
}

// What there is to be done: a line's event, all that is lent afresh, or a number written, by the first letter of its word.
#[derive(Clone, Copy)]
pub enum Deed {
    Event,
    Afresh,
    Write { op: u8, at: usize, value: u32 },
}

impl Step {
    // A character of a name is printed; an equals sign is not.
    pub(crate) fn name(self, output: &impl Print, c: u8) -> io::Result<()> {
        match self {
            Step::Name if c != b'=' => inputs::text(output, &[c]),
            _ => Ok(()),
        }
    }

    // What a character ends: a line, what is named behind a colon, or a number.
    pub(crate) fn done(self, c: u8) -> Option<Deed> {
        match (self, c) {
            (_, b'\n') => Some(Deed::Event),
            (_, b':') | (Step::Number { op: b':', .. }, b' ' | b',') => Some(Deed::Afresh),
            (Step::Number { op, at, value }, b' ' | b',') => Some(Deed::Write { op, at, value }),
            _ => None,
        }
    }

    // One character more. A space ends a word, an index or a number, and the next number is for the next index.
    pub(crate) fn read(self, c: u8) -> Step {
        match (self, c) {
            (Step::Name, b':' | b'=') => Step::Word(None),
            (Step::Name, _) | (_, b'\n') => Step::Name,
            (_, b',') => Step::Word(None),
            (Step::Word(Some(op)), b' ') => Step::Index { op, at: 0 },
            (Step::Index { op, at }, b' ') => Step::Number {
                op,
                at: at as usize,
                value: 0,
            },
            (Step::Number { op, at, .. }, b' ') => Step::Number {
                op,
                at: at % 65536 + 1,
                value: 0,
            },
            _ => self.lettered(c),
        }
    }

    // A digit of an index or of a number, or a letter, of which a word's first is kept.
    fn lettered(self, c: u8) -> Step {
        match self {
            Step::Name => self,
            Step::Word(op) if c <= b'9' => Step::Word(op),
            Step::Word(op) => Step::Word(op.or(Some(c))),
            Step::Index { op, at } => Step::Index {
                op,
                at: with_digit(at, c),
            },
            Step::Number { op, at, value } => Step::Number {
                op,
                at,
                value: with_digit(value, c),
            },
        }
    }
}

// A number with a digit behind it, modulo 2^32. A letter changes nothing.
fn with_digit(n: u32, c: u8) -> u32 {
    if c > b'9' {
        return n;
    }
    n.wrapping_mul(10).wrapping_add(u32::from(c % 48))
}
