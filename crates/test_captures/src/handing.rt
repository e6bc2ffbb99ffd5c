// A capture that is handed over in pieces, in many ways: each has to come to what the whole does.
use crate::numbers;
use crate::numbers::{Numbers, OFFSET};
use pieces::Stream;
use std::io;

// The longest capture of which every two cuts are tried.
const TWO_CUTS: usize = 240;

// A way to hand a capture over: cut at two places, and in pieces of at most so many bytes.
#[derive(Clone, Copy)]
pub struct Way {
    pub first: usize,
    pub second: usize,
    pub most: usize,
}

impl Way {
    // How many bytes may come at a place: up to the next cut, and no more than a piece has.
    fn room(self, at: usize) -> usize {
        if at < self.first {
            return self.most.min(self.first - at);
        }
        if at < self.second {
            return self.most.min(self.second - at);
        }
        self.most
    }
}

// A line for each length of the buffer.
pub(crate) fn buffers(
    output: &impl Print,
    capture: &[u8],
    whole: Numbers,
    buffer: &mut [u8],
    out: &mut [u8],
) -> io::Result<()> {
    for len in [129, 150, 400] {
        if let Some(part) = buffer.get_mut(..len) {
            ways(output, capture, whole, part, out)?;
        }
    }
    Ok(())
}

// A line that says in how many ways a capture comes to the same, with a buffer of some length.
fn ways(
    output: &impl Print,
    capture: &[u8],
    whole: Numbers,
    buffer: &mut [u8],
    out: &mut [u8],
) -> io::Result<()> {
    let len = buffer.len();
    let agreed = agreeing(capture, whole, buffer, out);
    inputs::text(output, b"pieces")?;
    inputs::number(output, len as u64)?;
    inputs::text(output, b" ways")?;
    inputs::number(output, agreed as u64)?;
    inputs::text(output, b"\n")
}

// In how many ways a capture comes to the same: of pieces of one length, for each length; and of two cuts, at each pair of
// places.
fn agreeing(capture: &[u8], whole: Numbers, buffer: &mut [u8], out: &mut [u8]) -> usize {
    let len = capture.len();
    let mut agrees = |first, second, most| {
        let way = Way {
            first,
            second,
            most,
        };
        handed(capture, buffer, out, way) == whole
    };
    let mut agreed = (1..=len).filter(|&most| agrees(0, 0, most)).count();
    if len > TWO_CUTS {
        return agreed;
    }
    for first in 0..=len {
        let more = (first..=len)
            .filter(|&second| agrees(first, second, len))
            .count();
        agreed = agreed.wrapping_add(more);
    }
    agreed
}

// What a capture comes to that is handed over in pieces.
fn handed(capture: &[u8], buffer: &mut [u8], out: &mut [u8], way: Way) -> Numbers {
    let mut handing = Handing {
        buffer,
        out,
        stream: pieces::begin(),
        digest: OFFSET,
    };
    let mut at = 0;
    // Stays (3): how long a piece is goes by how far the stream has come, so no iterator counts the places.
    while at < capture.len() {
        let most = way.room(at).min(handing.room());
        let got = most.min(capture.len() - at);
        if got == 0 {
            break;
        }
        handing.turn(&capture[at..at + got]);
        at += got;
    }
    handing.ended()
}

// A capture of which pieces are handed over: both buffers, what has come of it, and the digest of the events so far.
#[derive(Drop)]
pub struct Handing<'a> {
    buffer: &'a mut [u8],
    out: &'a mut [u8],
    stream: Stream,
    digest: u64,
}

impl Handing<'_> {
    // Hands over a piece, which has room behind the window.
    fn turn(&mut self, piece: &[u8]) {
        let have = self.stream.have;
        if have <= self.buffer.len() && piece.len() <= self.buffer.len() - have {
            self.buffer[have..have + piece.len()].copy_from_slice(piece);
        }
        let more = pieces::advance(self.buffer, self.out, self.stream, piece.len());
        self.stream = more.stream;
        self.digest = numbers::digest(self.digest, self.out, more.filled);
    }

    // What the capture has come to.
    fn ended(&self) -> Numbers {
        let (refusal, at) = match pieces::end(self.buffer, self.stream) {
            Some(end) => (end.refusal.number(), end.at),
            None => (0, 0),
        };
        Numbers {
            tally: self.stream.tally,
            refusal,
            at,
            digest: self.digest,
        }
    }

    // How many bytes may come: up to the buffer's end, or to the end of the packet that is passed over.
    fn room(&self) -> usize {
        let left = self.buffer.len().saturating_sub(self.stream.have);
        if self.stream.pass == 0 {
            return left;
        }
        left.min(self.stream.pass)
    }
}
