// The work: which event comes next, and what becomes of it when the reply is heard.
use crate::keys;
use crate::keys::{Method, Record};
use answers::ReplyNumbers;
use event::{ADD_HORIZON, ADD_WORKING, REMOVE_WORKING};
use rules::Reply;
use std::io;
use std::ops::Range;

// The parts of the work, as lines name them.
const PARTS: [&str; 3] = ["filled", "packets", "changes"];

// The most keys that are sent while filling.
const MOST_KEYS: u32 = 100000;

// What the program's words ask for.
#[derive(Clone, Copy)]
pub struct Plan {
    pub method: Method,
    pub servers: u64,
    pub horizon: u64,
    pub records: u64,
    pub packets: u64,
    pub changes: u64,
}

// What comes next, and how much of its kind was done before.
#[derive(Clone, Copy)]
enum Next {
    Configure,
    Add(u64),
    Start(u64),
    Fill,
    Send(u64),
    Join(u64),
    Leave(u64),
    Nothing,
}

impl Plan {
    // How many servers are put to work; the one behind them is the first of the horizon.
    fn working(&self) -> u64 {
        self.servers.saturating_sub(self.horizon)
    }

    // Packets are sent until all are; then come the changes.
    fn sending(&self, sent: u64) -> Next {
        if sent < self.packets {
            return Next::Send(sent);
        }
        self.changing(0)
    }

    // The first server of the horizon goes to work and leaves it, so many times. Then nothing is left to do.
    fn changing(&self, changed: u64) -> Next {
        if changed < self.changes {
            return Next::Join(changed);
        }
        Next::Nothing
    }
}

impl Next {
    // How many parts are over.
    fn parts_over(self) -> usize {
        match self {
            Next::Configure | Next::Add(_) | Next::Start(_) | Next::Fill => 0,
            Next::Send(_) => 1,
            Next::Join(_) | Next::Leave(_) => 2,
            Next::Nothing => 3,
        }
    }
}

// What the replies came to: their checksum, how many recorded a session, how many were refusals.
#[derive(Clone, Copy, Default)]
struct Tally {
    sum: u64,
    used: u64,
    refused: u64,
}

impl Tally {
    // One reply more.
    fn add(&mut self, reply: ReplyNumbers) {
        let used = reply.mark == rules::CHOSEN_RECORDED;
        let refused = reply.refusal > 0;
        self.sum = keys::with_reply(self.sum, reply);
        self.used = self.used.wrapping_add(u64::from(used));
        self.refused = self.refused.wrapping_add(u64::from(refused));
    }
}

// How far the work is: what comes next, the generator's number, keys sent while filling, and what was heard.
#[derive(Clone, Copy)]
pub struct Work {
    next: Next,
    number: u32,
    keys: u32,
    tally: Tally,
}

impl Work {
    // Before the first event.
    pub(crate) fn begun() -> Work {
        Work {
            next: Next::Configure,
            number: 1,
            keys: 0,
            tally: Tally::default(),
        }
    }

    // The next event record, while one comes.
    pub(crate) fn event(&self, plan: &Plan) -> Option<Record> {
        match self.next {
            Next::Configure => Some(keys::configure(plan.method)),
            Next::Add(j) => Some(keys::change(ADD_HORIZON, j)),
            Next::Start(j) => Some(keys::change(ADD_WORKING, j)),
            Next::Fill => Some(keys::packet(self.keys)),
            Next::Send(_) => Some(keys::packet(keys::below(self.number, self.keys))),
            Next::Join(_) => Some(keys::change(ADD_WORKING, plan.working())),
            Next::Leave(_) => Some(keys::change(REMOVE_WORKING, plan.working())),
            Next::Nothing => None,
        }
    }

    // A reply is tallied, and the next event comes. Which parts are over with this one.
    pub(crate) fn hear(&mut self, plan: &Plan, reply: Reply) -> Range<usize> {
        self.tally.add(reply.into());
        let before = self.next.parts_over();
        self.next = self.after(plan);
        before..self.next.parts_over()
    }

    // What comes behind this event.
    fn after(&mut self, plan: &Plan) -> Next {
        match self.next {
            Next::Configure => Next::Add(0),
            Next::Add(j) if j.saturating_add(1) < plan.servers => Next::Add(j + 1),
            Next::Add(_) => Next::Start(0),
            Next::Start(j) if j.saturating_add(1) < plan.working() => Next::Start(j + 1),
            Next::Start(_) => self.filling(plan),
            Next::Fill => {
                self.keys = self.keys.wrapping_add(1);
                self.filling(plan)
            }
            Next::Send(n) => {
                self.number = keys::next(self.number);
                plan.sending(n.wrapping_add(1))
            }
            Next::Join(n) => Next::Leave(n),
            Next::Leave(n) => plan.changing(n.wrapping_add(1)),
            Next::Nothing => Next::Nothing,
        }
    }

    // New keys are sent until so many records are used, or 100,000 keys were sent. Then packets of those keys.
    fn filling(&self, plan: &Plan) -> Next {
        if self.tally.used < plan.records && self.keys < MOST_KEYS {
            return Next::Fill;
        }
        plan.sending(0)
    }

    // Prints a line for each of the parts: its name, the checksum so far, used records, keys sent, refusals. It fails where nobody
    // reads them any more.
    pub(crate) fn report(&self, output: &impl Print, parts: Range<usize>) -> io::Result<()> {
        let Tally { sum, used, refused } = self.tally;
        let keys = self.keys;
        for &part in PARTS.iter().take(parts.end).skip(parts.start) {
            inputs::heard(println!(output; "{part} {sum} {used} {keys} {refused}"))?;
        }
        Ok(())
    }
}
