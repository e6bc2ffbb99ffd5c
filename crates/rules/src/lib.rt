// The answer to an event, and in specs/ what each event does: the refusal table and the effects, for every
// input. `engine` and `balancer` carry it out.

#![tactic(auto)]

ghost use Rattle.std.specs.Prelude.{◌≡◌};
ghost use Rattle.event.specs.Event.{fault_number};
ghost use Rattle.rules.specs.declared.Reply.TheVariants.{Refused};
ghost use Rattle.rules.specs.Answer.{number_of};

use event::Fault;
use roster::Roster;

// The marks of accepted packets: from the key's record; chosen and safe; chosen and recorded; chosen, unsafe and no room.
pub const FROM_RECORD: u8 = 1;

pub const CHOSEN_SAFE: u8 = 2;

pub const CHOSEN_RECORDED: u8 = 3;

pub const NO_ROOM: u8 = 4;

// The marks of accepted ends: the record half-closed, by its first end; the record removed, by the next; nothing to remove.
pub const RECORD_HALF_CLOSED: u8 = 8;

pub const RECORD_REMOVED: u8 = 5;

pub const NOTHING_TO_REMOVE: u8 = 6;

// Why an event is refused, in the order in which that is tested, in document 01's words.
#[derive(Clone, Copy, PartialEq, Eq, Debug)]
pub enum Refusal {
    // 9: "table length 0, above 65,520 or not a multiple of 20; rows or flags not 4,096; ring not 64"
    WrongLengths,
    // 11: "roster not in its stated form: more than 64, out of order, server 0 or twice, a used unused place, bad method or row count"
    UnsoundRoster,
    // 1: "event not 16 bytes, unknown kind, non-zero filler, bad method or row count"
    Malformed,
    // 2: "kinds 3 to 6 with server 0"
    ServerZero,
    // 10: "configure while roster or used part is not empty"
    NotEmpty,
    // 3: "add horizon of a server already working or in the horizon"
    HeldAlready,
    // 6: "add horizon with 64 servers held"
    RosterFull,
    // 4: "add working or remove horizon of one not in the horizon"
    NotInHorizon,
    // 5: "remove working of one not working"
    NotWorking,
    // 7: "packet with no working server"
    NoneWorking,
    // 8: "packet whose record, or else whose row or ring entry, names a server that is not working"
    LedToIdle,
}

// A refusal's number.
impl From<Refusal> for u8 {
    ghost from_gives = { λ refusal number. number ≡ number_of refusal };

    fn from(refusal: Refusal) -> u8 {
        match refusal {
            Refusal::WrongLengths => 9,
            Refusal::UnsoundRoster => 11,
            Refusal::Malformed => 1,
            Refusal::ServerZero => 2,
            Refusal::NotEmpty => 10,
            Refusal::HeldAlready => 3,
            Refusal::RosterFull => 6,
            Refusal::NotInHorizon => 4,
            Refusal::NotWorking => 5,
            Refusal::NoneWorking => 7,
            Refusal::LedToIdle => 8,
        }
    }
}

// A record that is no event is refused for what is wrong with it.
impl From<Fault> for Refusal {
    ghost from_gives = { λ fault refusal. number_of refusal ≡ fault_number fault };

    fn from(fault: Fault) -> Refusal {
        match fault {
            Fault::Malformed => Refusal::Malformed,
            Fault::ServerZero => Refusal::ServerZero,
        }
    }
}

// A refusal by its number alone. What the engine is handed may be refused by a number that has no line in the table.
// Stays (1): only a number holds every number.
#[derive(Clone, Copy, PartialEq, Eq, Debug)]
pub struct RefusedBy {
    pub number: u8,
}

impl From<Refusal> for RefusedBy {
    ghost from_gives = { λ refusal refused. refused.number ≡ number_of refusal };

    fn from(refusal: Refusal) -> RefusedBy {
        RefusedBy {
            number: refusal.into(),
        }
    }
}

impl From<Fault> for RefusedBy {
    ghost from_gives = { λ fault refused. refused.number ≡ fault_number fault };

    fn from(fault: Fault) -> RefusedBy {
        Refusal::from(fault).into()
    }
}

// The answer: the accepted facts or a refusal number.
// Stays (1): document 01 names this form, "accepted with server, mark and reads, or refused with its number"; programs print the numbers.
#[derive(Clone, Copy)]
pub enum Reply {
    Accepted { server: u32, mark: u8, reads: usize },
    Refused(u8),
}

// The reply that a refusal comes to.
impl From<Refusal> for Reply {
    ghost from_gives = { λ refusal reply. reply ≡ Refused (number_of refusal) };

    fn from(refusal: Refusal) -> Reply {
        Reply::Refused(refusal.into())
    }
}

impl From<RefusedBy> for Reply {
    ghost from_gives = { λ refused reply. reply ≡ Refused refused.number };

    fn from(refused: RefusedBy) -> Reply {
        Reply::Refused(refused.number)
    }
}

// What the balancer hands back: the answer and the roster afterwards.
#[derive(Clone, Copy)]
pub struct Outcome {
    pub reply: Reply,
    pub roster: Roster,
}
