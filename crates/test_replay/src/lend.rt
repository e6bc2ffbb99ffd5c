// The buffers are written, lent, and what comes of it is printed.
use crate::digests;
use crate::given::{Given, What};
use std::io;
use test_byvalue::Tried;

// The buffers, as long as any line needs them.
#[derive(Drop)]
pub struct Buffers {
    pub table: [u8; 65540],
    pub rows: [u32; 4097],
    pub flags: [u8; 4097],
}

impl Buffers {
    // Zeros in table and flags, and one number in the rows.
    pub(crate) fn fill(&mut self, server: u32) {
        self.table.fill(0);
        self.rows.fill(server);
        self.flags.fill(0);
    }

    // A line's end: what is lent is cut to its lengths, and the event or the start is done on it and printed. What is given next.
    pub(crate) fn act(&mut self, output: &impl Print, g: Given) -> io::Result<Given> {
        let Given {
            event,
            lengths: [e, a, b, c],
            what,
            ring,
            roster,
        } = g;
        let record = &event[..e.min(event.len())];
        let table = front(&mut self.table, a);
        let rows = front(&mut self.rows, b);
        let flags = front(&mut self.flags, c);
        let tried = match what {
            What::Event => test_byvalue::event(record, table, rows, flags, ring, roster),
            What::Short => Tried {
                outcome: test_byvalue::event_short(record, table, rows, flags, roster),
                ring,
            },
            What::Start => Tried {
                outcome: test_byvalue::start(table, rows, flags, ring, roster),
                ring,
            },
        };
        digests::line(output, what, tried, table, rows, flags)?;
        Ok(g.after(tried))
    }
}

// A value is written, where there is a place for it.
pub(crate) fn put<T: Copy>(all: &mut [T], at: usize, value: T) {
    if let Some(place) = all.get_mut(at) {
        *place = value;
    }
}

// The first n of a slice, or all where there are fewer.
fn front<T>(all: &mut [T], n: usize) -> &mut [T] {
    let n = n.min(all.len());
    &mut all[..n]
}
