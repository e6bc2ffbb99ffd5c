// The search for a key's record among records of which some are half-closed. A key is compared by two words of eight bytes.
ghost use Rattle.std.specs.Prelude.{◌≡◌, ◌+◌, ◌*◌, ◌/◌, ◌≤◌, MatchOption, length};
ghost use Rattle.words.specs.Words.{word_at, BytesAt};
ghost use Rattle.table.specs.Table.{finding_of, record_bytes, key_bytes};
ghost use Rattle.table.specs.Searching.{Answers, Begins, GoesOn, Spelt, Words};

use crate::{Found, KEY_BYTES, RECORD_BYTES, TAG_OFFSET, used_tag};

// A key as two words: what its first eight bytes spell, and its last eight.
#[derive(Clone, Copy)]
pub(crate) struct KeyWords {
    front: u64,
    back: u64,
}

impl KeyWords {
    // The words of a key.
    pub(crate) fn of(key: &[u8; KEY_BYTES]) -> KeyWords
        ensures { Spelt key.now result.front result.back }
    {
        KeyWords {
            front: word_at(key, 0),
            back: word_at(key, 5),
        }
    }

    // The first used record with these words from index i on, counted from 0, whatever the tags. That the record there isn't used is told at
    // once: so ends every search in vain of a table in which no record is half-closed. Two records are looked at in a turn.
    // Stays (3): 8.0 instructions a half-closed record; a `for` over every record takes 9.0, `step_by` with two in a turn 9.0 to 9.6.
    pub(crate) fn find_from(self, table: &[u8], i: usize) -> Found
        requires { i * record_bytes + record_bytes ≤ length table.now }
        ensures { Answers table.now i self.front self.back (finding_of result) }
    {
        let mut at = i * RECORD_BYTES;
        if !used_tag(table[at + TAG_OFFSET]) {
            return Found::Nothing(i);
        }
        let room = table.len() / RECORD_BYTES;
        while at + RECORD_BYTES < room * RECORD_BYTES {
            if let Some(found) = self.told_at(table, at) {
                return found;
            }
            if let Some(found) = self.told_at(table, at + RECORD_BYTES) {
                return found;
            }
            at += 2 * RECORD_BYTES;
        }
        if at < room * RECORD_BYTES {
            return self.told_at(table, at).unwrap_or(Found::Nothing(room));
        }
        Found::Nothing(room)
    }

    // What the record that begins at a byte tells: the search's answer, where it isn't used or has these words, else nothing.
    fn told_at(self, table: &[u8], at: usize) -> Option<Found>
        requires { Begins table.now at }
        ensures { MatchOption result
            (GoesOn table.now (at / record_bytes) self.front self.back)
            (λ found. Answers table.now (at / record_bytes) self.front self.back (finding_of found)) }
    {
        if !used_tag(table[at + TAG_OFFSET]) {
            return Some(Found::Nothing(at / RECORD_BYTES));
        }
        if self.stand_at(table, at) {
            return Some(Found::At(at / RECORD_BYTES + 1));
        }
        None
    }

    // Whether the 13 bytes from a place on have these words. The last are looked at first: the keys of one address differ there.
    pub(crate) fn stand_at(self, table: &[u8], at: usize) -> bool
        requires { at + key_bytes ≤ length table.now }
        ensures { Words table.now at self.front self.back result }
    {
        word_at(table, at + 5) == self.back && word_at(table, at) == self.front
    }
}

// The number that the eight bytes from a place on spell, the lowest first; they are bytes.
// Stays (4): a slice's `first_chunk` answers an Option, which would have to be taken apart for each record.
fn word_at(s: &[u8], at: usize) -> u64
    requires { at + 8 ≤ length s.now }
    ensures { (result ≡ word_at s.now at) × BytesAt s.now at 8 }
{
    words::join8(
        s[at],
        s[at + 1],
        s[at + 2],
        s[at + 3],
        s[at + 4],
        s[at + 5],
        s[at + 6],
        s[at + 7],
    )
}
