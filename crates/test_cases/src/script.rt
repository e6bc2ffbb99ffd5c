// Cases as text: a step is a word and up to two numbers, and ends with a comma or its line. A word
// that begins with a capital letter is no step. An equals sign stands before each section but the first.

// What was read of a step: its word's first letter, the number before the last space, and the one behind it.
// Stays (7): each letter has one arm, where what it stands for is done or shown; an enum between would list them twice.
#[derive(Clone, Copy, Default)]
pub struct Step {
    pub word: Option<u8>,
    pub a: u32,
    pub b: u32,
}

impl Step {
    // One character more: a space, a digit of a number modulo 2^32, or a letter, of which the first is kept.
    pub(crate) fn read(self, c: u8) -> Step {
        match c {
            b',' | b'\n' | b'=' => Step::default(),
            b' ' => Step {
                a: self.b,
                b: 0,
                ..self
            },
            0..=b'9' => Step {
                b: self.b.wrapping_mul(10).wrapping_add(u32::from(c % 48)),
                ..self
            },
            _ => Step {
                word: self.word.or(Some(c)),
                ..self
            },
        }
    }
}

// Whether a character ends a step.
pub(crate) fn ends(c: u8) -> bool {
    matches!(c, b',' | b'\n')
}

// A value written by someone else, where there is a place for it.
// Stays (2): test_replay has the same line; a library for one line would promise what `get_mut` does.
pub(crate) fn poke<T: Copy>(list: &mut [T], i: usize, value: T) {
    if let Some(place) = list.get_mut(i) {
        *place = value;
    }
}
