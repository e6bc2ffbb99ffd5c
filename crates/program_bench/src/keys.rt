// The stated generator, the same in bench/load.h:
//     server(j), j from 0       (j + 1) x 2654435769 modulo 2^32: spread over the whole range, no two alike, none 0
//     key(i), i from 0          source i x 2654435761 modulo 2^32, target 192.0.2.1, ports i x 40503 modulo 2^16 and 443, protocol 6
//     numbers                   x' = x x 1664525 + 1013904223 modulo 2^32, from 1; a number below n is x / 256 modulo n
//     checksum                  s' = s x 31 + a modulo 2^58, from 0; each reply gives two numbers a: its server, and
//                               its reads x 65536 + its mark x 256 + its refusal
use answers::ReplyNumbers;
use event::{CONFIGURE, EVENT_BYTES, PACKET};
use settings::{HRW, MOST_ROWS, RING, ROW_TABLE};

// An event record.
pub(crate) type Record = [u8; EVENT_BYTES];

// The methods.
// Stays (2): program_figures has its own, whose rows carry their count; here the word on the command line says no count.
#[derive(Clone, Copy)]
pub enum Method {
    Hrw,
    Ring,
    Rows,
}

// A number that no method has.
#[derive(Clone, Copy)]
pub struct UnknownMethod;

impl TryFrom<u64> for Method {
    type Error = UnknownMethod;

    fn try_from(number: u64) -> Result<Method, UnknownMethod> {
        match number {
            1 => Ok(Method::Hrw),
            2 => Ok(Method::Ring),
            3 => Ok(Method::Rows),
            _ => Err(UnknownMethod),
        }
    }
}

// An event record that asks for a change of the j-th server.
pub(crate) fn change(kind: u8, j: u64) -> Record {
    let server = j.wrapping_add(1).wrapping_mul(2654435769);
    let [.., a, b, c, d] = server.to_be_bytes();
    [kind, 0, 0, a, b, c, d, 0, 0, 0, 0, 0, 0, 0, 0, 0]
}

// An event record that selects a method, 4,096 rows for method 3.
pub(crate) fn configure(method: Method) -> Record {
    let (number, rows) = match method {
        Method::Hrw => (HRW, 0u16),
        Method::Ring => (RING, 0),
        Method::Rows => (ROW_TABLE, MOST_ROWS),
    };
    let [high, low] = rows.to_be_bytes();
    [
        CONFIGURE, 0, 0, number, high, low, 0, 0, 0, 0, 0, 0, 0, 0, 0, 0,
    ]
}

// A packet of the i-th key.
pub(crate) fn packet(i: u32) -> Record {
    let [a, b, c, d] = i.wrapping_mul(2654435761).to_be_bytes();
    let [.., high, low] = i.wrapping_mul(40503).to_be_bytes();
    [PACKET, 0, 0, a, b, c, d, 192, 0, 2, 1, high, low, 1, 187, 6]
}

// The next number.
pub(crate) fn next(x: u32) -> u32 {
    x.wrapping_mul(1664525).wrapping_add(1013904223)
}

// A number below n; 0 where there is none.
pub(crate) fn below(x: u32, n: u32) -> u32 {
    (x / 256).checked_rem(n).unwrap_or(0)
}

// One number more in a checksum.
fn mixed(sum: u64, a: u32) -> u64 {
    sum.wrapping_mul(31).wrapping_add(u64::from(a)) % (1 << 58)
}

// One reply more in a checksum.
pub(crate) fn with_reply(sum: u64, reply: ReplyNumbers) -> u64 {
    let reads = (reply.reads % 65536) as u32;
    let rest = reads * 65536 + u32::from(reply.mark) * 256 + u32::from(reply.refusal);
    mixed(mixed(sum, reply.server), rest)
}
