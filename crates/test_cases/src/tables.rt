// Tables damaged, full, and longer than allowed, and event records in the same buffer.
use crate::script::{self, Step};
use crate::{events, say};
use std::io;
use table::Found;

// The n-th key: 10.0.h.l to 192.0.2.1, port n to port 443, protocol 6.
fn key_of(n: u32) -> [u8; 13] {
    let [_, _, h, l] = n.to_be_bytes();
    [10, 0, h, l, 192, 0, 2, 1, h, l, 1, 187, 6]
}

// The n-th record put behind the first `used` ones. It names server 33818120 where n is 7, 15 and so on, else 16909060.
fn put(t: &mut [u8], used: usize, n: u32) {
    table::write_after(t, used, key_of(n), (n % 8 / 7 + 1) * 16909060);
}

// The n-th record appended.
fn append(t: &mut [u8], n: u32) {
    let used = table::used(t);
    put(t, used, n);
}

// The first n records.
fn fill(t: &mut [u8], n: u32) {
    for i in 0..n {
        put(t, i as usize, i + 1);
    }
}

// What a step does to the table: start, fill, append, half-close, remove, leave or poke.
fn change(t: &mut [u8], s: Step) {
    let Step { word, a, b } = s;
    match word {
        Some(b's') => table::start(t),
        Some(b'f') => fill(t, b),
        Some(b'a') => append(t, b),
        Some(b'c') => table::half_close(t, b as usize),
        Some(b'r') => table::remove(t, b as usize),
        Some(b'l') => table::remove_server(t, b),
        Some(b'p') => script::poke(t, a as usize, (b % 256) as u8),
        _ => (),
    }
}

// A key's record: whether there is one, its place or how many records were read in vain, and the server that it names.
fn seek(output: &impl Print, t: &[u8], n: u32) -> io::Result<()> {
    let figures = match table::find(t, key_of(n)) {
        Found::At(place) => [1, place as u64, u64::from(table::server_at(t, place))],
        Found::Nothing(used) => [0, used as u64, 0],
    };
    say::numbers(output, &figures)
}

// What a step shows: a key's record, a place's tag, what the bytes ask as an event record, a hash or dump of the bytes, how many bytes
// there are, or records used.
fn show(output: &impl Print, t: &[u8], s: Step) -> io::Result<()> {
    match s.word {
        Some(b'k') => seek(output, t, s.b),
        Some(b'w') => inputs::number(output, u64::from(table::tag_at(t, s.b as usize))),
        Some(b'e') => events::asked(output, t),
        Some(b'h') => inputs::number(output, u64::from(hash::fnv(t))),
        Some(b'd') => say::records(output, t),
        Some(b'b') => inputs::number(output, t.len() as u64),
        Some(b'u') => inputs::number(output, table::used(t) as u64),
        _ => Ok(()),
    }
}

// A step is done on a buffer's first bytes, and its outcome printed. How many bytes to take from then on.
pub(crate) fn step(
    output: &impl Print,
    buffer: &mut [u8],
    size: usize,
    s: Step,
) -> io::Result<usize> {
    if s.word == Some(b't') {
        return Ok(s.b as usize);
    }
    if let Some(t) = buffer.get_mut(..size) {
        change(t, s);
        show(output, t, s)?;
    }
    Ok(size)
}
