// Runs the FNV authors' published vectors of 32-bit FNV-1a through `hash`. The vectors stand in the file stdin, a line each, in quotation
// marks, with \0 for a zero byte and \n for a line end; each line is printed with F of its bytes in hexadecimal behind it. What must be
// printed stands in the file stdout, typed from the published list. Once nobody reads the lines any more the program ends, with the status
// that the signal PIPE would give.

#![tactic(auto)]

ghost use Rattle.std.specs.Prelude.{◌≤◌};

use std::io;
use std::process::ExitCode;

// A vector as far as it was read: its bytes at the front of a buffer, how many there are, and the character before the next one.
#[derive(Drop)]
struct Vector {
    bytes: [u8; 65536],
    used: usize,
    before: u8,
    ghost within: { used ≤ 65536 },
}

impl Vector {
    // One character more. Behind a line's last one the next vector begins.
    fn read(&mut self, c: u8) {
        match c {
            b'\n' => self.used = 0,
            b'"' | b'\\' => (),
            _ => self.push(meant(self.before, c)),
        }
        self.before = c;
    }

    // One byte more, where there is room.
    fn push(&mut self, byte: u8) {
        if let Some(place) = self.bytes.get_mut(self.used) {
            *place = byte;
            self.used += 1;
        }
    }

    // F, behind a space.
    fn sum(&self, output: &impl Print) -> io::Result<()> {
        let sum = hash::fnv(&self.bytes[..self.used]);
        inputs::heard(print!(output; " {sum:08x}"))
    }
}

// The byte that a character stands for, by the character before it.
fn meant(before: u8, c: u8) -> u8 {
    match (before, c) {
        (b'\\', b'0') => 0,
        (b'\\', _) => b'\n',
        _ => c,
    }
}

// Every character is printed, and before a line's end F.
fn run(output: &impl Print, text: &[u8]) -> io::Result<()> {
    let mut vector = Vector {
        bytes: [0; 65536],
        used: 0,
        before: 0,
    };
    for &c in text {
        if c == b'\n' {
            vector.sum(output)?;
        }
        inputs::text(output, &[c])?;
        vector.read(c);
    }
    Ok(())
}

fn main(rt: HostRuntime) -> ExitCode {
    let mut text = [0; 65536];
    let n = inputs::read_full(&mut rt.stdin(), &mut text);
    inputs::status(run(&rt, &text[..n]))
}
