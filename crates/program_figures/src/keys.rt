// The keys, and the stream that keys and spread server numbers are taken from.
use std::array;

// A stream of numbers, each 1664525 times the one before and 1013904223, modulo 2^32. It gives the high byte of each.
#[derive(Clone, Copy)]
pub struct Stream {
    number: u32,
}

impl Stream {
    // The stream that keys are taken from.
    pub(crate) fn of_keys() -> Stream {
        Stream { number: 1 }
    }

    // The stream that spread server numbers are taken from.
    pub(crate) fn of_servers() -> Stream {
        Stream { number: 2 }
    }

    // The next byte.
    fn byte(&mut self) -> u8 {
        self.number = self.number.wrapping_mul(1664525).wrapping_add(1013904223);
        let [high, ..] = self.number.to_be_bytes();
        high
    }

    // The next bytes, as many as a key or a number has.
    pub(crate) fn bytes<const N: usize>(&mut self) -> [u8; N] {
        array::from_fn(|_| self.byte())
    }
}

// F of as many keys as there are places.
pub(crate) fn points(out: &mut [u32]) {
    let mut keys = Stream::of_keys();
    out.fill_with(|| hash::fnv(&keys.bytes::<{ table::KEY_BYTES }>()));
}
