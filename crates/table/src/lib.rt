// The tracking table: records of 20 bytes in a lent buffer. Places are counted from 1.

#![tactic(auto)]

mod search;

ghost use Rattle.std.specs.Prelude.{◌≡◌, ◌++◌, ◌+◌, ◌*◌, ◌-◌, ◌<◌, ◌≤◌, ◌⊎◌, MatchOption, length, take, drop, replicate};
ghost use Rattle.std.proofs.Math.Seq.{paste};
ghost use Rattle.table.specs.Table.{used_tag, used as used-of, find as find-of, finding_of, server_at, tag_at, new_record, written_after, half_closed, removed, removed_server, started, record_bytes, key_bytes};

use search::KeyWords;

// A tracking record's bytes: the key, the tag, two zeros, the server's four bytes.
pub const RECORD_BYTES: usize = 20;

// A key's bytes, the first of a record.
pub const KEY_BYTES: usize = 13;

// Where a record's tag stands, counted from 0.
pub const TAG_OFFSET: usize = 13;

// Where its server's four bytes begin.
pub const SERVER_OFFSET: usize = 16;

// Stays (1): tags are bytes of a lent table, which may hold any.
// The tag of a new record.
pub const NEW_TAG: u8 = 1;

// The tag of a half-closed record: its first end has come.
pub const HALF_CLOSED_TAG: u8 = 2;

// The longest table: 3,276 records.
pub const MOST_TABLE_BYTES: usize = 65520;

// Where a key's record is, or, where it has none, how many records are used: either way the number of used records read.
// Stays (1): neither number is an error, and the cases' names say what is counted; a Result would call a session's first packet a failure.
#[derive(Clone, Copy, PartialEq, Eq, Debug)]
pub enum Found {
    At(usize),
    Nothing(usize),
}

// How many records are used.
pub fn used(table: &[u8]) -> usize
    ensures { result ≡ used-of table.now }
{
    let (records, _) = table.as_chunks::<RECORD_BYTES>();
    records
        .iter()
        .position(|record| !used_tag(record[TAG_OFFSET]))
        .unwrap_or(records.len())
}

// The first used record with a key. The records before the first half-closed one are passed here, where one tag is asked for: that is one
// comparison. From there on `find_from` asks for both. The loop counts bytes, and only its end counts records: so it has one number to carry.
// Stays (3): 5.5 instructions a record in the whole program; a `for` with `step_by` takes 6.0, over records or `chunks_exact` 6.5.
pub fn find(table: &[u8], key: [u8; KEY_BYTES]) -> Found
    ensures { finding_of result ≡ find-of key table.now }
{
    let words = KeyWords::of(&key);
    let end = table.len() / RECORD_BYTES * RECORD_BYTES;
    let mut at = 0;
    while at < end {
        if table[at + TAG_OFFSET] != NEW_TAG {
            return words.find_from(table, at / RECORD_BYTES);
        }
        if words.stand_at(table, at) {
            return Found::At(at / RECORD_BYTES + 1);
        }
        at += RECORD_BYTES;
    }
    Found::Nothing(at / RECORD_BYTES)
}

// The server that the record at a place names, 0 where there is no such place.
// Stays (1): the rules of a packet go by the definition's number (`server_at`).
#[tactic(auto, using(crate::proofs::Places::no_server, crate::proofs::Places::server_in))]
pub fn server_at(table: &[u8], place: usize) -> u32
    ensures { result ≡ server_at place table.now }
{
    match index_of(place, table.len() / RECORD_BYTES) {
        Some(i) => {
            let at = i * RECORD_BYTES + SERVER_OFFSET;
            // Stays (4): a slice's `first_chunk` answers an Option, which would have to be taken apart here.
            bigendian::join4(table[at], table[at + 1], table[at + 2], table[at + 3])
        }
        None => 0,
    }
}

// The tag of the record at a place, 0 where there is no such place.
#[tactic(auto, using(crate::proofs::Places::no_tag, crate::proofs::Places::tag_in))]
pub fn tag_at(table: &[u8], place: usize) -> u8
    ensures { result ≡ tag_at place table.now }
{
    match index_of(place, table.len() / RECORD_BYTES) {
        Some(i) => table[i * RECORD_BYTES + TAG_OFFSET],
        None => 0,
    }
}

// Writes a new record behind the first n; where n is the number of used records, that is the first
// unused place. A table without that place stays as it is.
#[tactic(auto, using(crate::proofs::Moves::write_in, crate::proofs::Moves::write_out))]
pub fn write_after(table: &mut [u8], n: usize, key: [u8; KEY_BYTES], server: u32)
    ensures { table.new ≡ written_after n key server table.old }
{
    if n < table.len() / RECORD_BYTES {
        put(
            &mut table[n * RECORD_BYTES..(n + 1) * RECORD_BYTES],
            key,
            server,
        );
    }
}

// Half-closes the record at a place: its tag becomes 2. A place outside the used part changes nothing.
#[tactic(auto, using(crate::proofs::Parts::used_fits, crate::proofs::HalfClosed::half_nowhere, crate::proofs::HalfClosed::half_in))]
pub fn half_close(table: &mut [u8], place: usize)
    ensures { table.new ≡ half_closed place table.old }
{
    if let Some(i) = index_of(place, used(table)) {
        table[i * RECORD_BYTES + TAG_OFFSET] = HALF_CLOSED_TAG;
    }
}

// Takes the record at a place away and closes the gap. A place outside the used part removes nothing.
#[tactic(auto, using(crate::proofs::Parts::used_fits, crate::proofs::Removals::removed_nowhere))]
pub fn remove(table: &mut [u8], place: usize)
    ensures { table.new ≡ removed place table.old }
{
    let n = used(table);
    if let Some(i) = index_of(place, n) {
        close_gap(table, i, n);
    }
}

// Takes away every record that names a server: in one pass the others move up behind each other, and what they leave is zeroed.
pub fn remove_server(table: &mut [u8], server: u32)
    ensures { table.new ≡ removed_server server table.old }
{
    let n = used(table);
    let mut kept = 0;
    for i in 0..n {
        if server_at(table, i + 1) != server {
            keep(table, i, kept);
            kept += 1;
        }
    }
    spans::clear(&mut table[kept * RECORD_BYTES..n * RECORD_BYTES]);
}

// Zeroes the whole table.
pub fn start(table: &mut [u8])
    ensures { table.new ≡ started table.old }
{
    spans::clear(table);
}

// Whether a record with this tag is used.
#[tactic(auto, unfolding(crate::specs::Table::used_tag))]
pub(crate) fn used_tag(tag: u8) -> bool
    ensures { result ≡ used_tag tag }
{
    matches!(tag, NEW_TAG | HALF_CLOSED_TAG)
}

// The index, counted from 0, of the record at a place, counted from 1, where it is one of the first n.
fn index_of(place: usize, n: usize) -> Option<usize>
    ensures { MatchOption result ((place ≡ 0) ⊎ (n < place)) (λ i. (place ≡ i + 1) × (i < n)) }
{
    if place == 0 || n < place {
        return None;
    }
    Some(place - 1)
}

// Fills a place with a new record: the key, its tag, two zeros, the server's four bytes.
fn put(s: &mut [u8], key: [u8; KEY_BYTES], server: u32)
    requires { length s.old ≡ record_bytes }
    ensures { s.new ≡ new_record key server }
{
    let [a, b, c, d] = bigendian::split4(server);
    s[..KEY_BYTES].copy_from_slice(&key);
    s[KEY_BYTES..].copy_from_slice(&[NEW_TAG, 0, 0, a, b, c, d]);
}

// Takes the record with index i, counted from 0, out of the first n: those behind it move up, and the last place is zeroed.
#[tactic(auto, using(crate::proofs::Moves::gap_closed))]
fn close_gap(table: &mut [u8], i: usize, n: usize)
    requires { (i < n) × (n * record_bytes ≤ length table.old) }
    ensures { table.new
        ≡ take (i * record_bytes) table.old
        ++ ((drop record_bytes (take (n * record_bytes - i * record_bytes) (drop (i * record_bytes) table.old)) ++ replicate record_bytes 0)
        ++ drop (n * record_bytes) table.old) }
{
    spans::close(&mut table[i * RECORD_BYTES..n * RECORD_BYTES], RECORD_BYTES);
}

// Copies the record with index i, counted from 0, to index w, which is no later; one that stands there already stays.
#[tactic(auto, using(crate::proofs::Moves::copied_to_itself))]
fn keep(table: &mut [u8], i: usize, w: usize)
    requires { (w ≤ i) × (i * record_bytes + record_bytes ≤ length table.old) }
    ensures { table.new ≡ paste table.old (w * record_bytes) (drop (i * record_bytes) table.old) record_bytes }
{
    if w != i {
        table.copy_within(i * RECORD_BYTES..(i + 1) * RECORD_BYTES, w * RECORD_BYTES);
    }
}
