// The ring: a lent slice of entries. Few thin functions over it; everything else works on plain numbers and on entries by value.

#![tactic(auto)]

ghost use Rattle.std.specs.Prelude.{◌≡◌};
ghost use Rattle.ring.specs.Ring.{entry_read, overlaid};

// How many places a ring has.
pub const RING_PLACES: usize = 64;

// An entry: a position, the server that a key reading it is led to, and a track flag.
// Stays (1): document 01 names this form, "each hold a position, a server and a track flag"; anyone may lend one, with any byte as its flag.
#[repr(C)]
#[derive(Clone, Copy, Default, PartialEq, Eq)]
pub struct Entry {
    pub position: u32,
    pub server: u32,
    pub track: u8,
}

// The first of the first `places` entries whose position is not below the point, else the first entry. A ring with no
// entry gives zeros.
pub fn read(ring: &[Entry], places: usize, point: u32) -> Entry
    ensures { result ≡ entry_read places point ring.now }
{
    let used = &ring[..places.min(ring.len())];
    used.iter()
        .find(|entry| point <= entry.position)
        .or(ring.first())
        .copied()
        .unwrap_or_default()
}

// Writes the first `places` entries from a plan. Where the plan or the ring has fewer, nothing is written.
// Stays (6): a plan is all its 64 entries (`overlaid`), and the roster says how many are in use.
pub fn draw(ring: &mut [Entry], plan: [Entry; RING_PLACES], places: usize)
    ensures { ring.new ≡ overlaid plan places ring.old }
{
    if places <= RING_PLACES && places <= ring.len() {
        ring[..places].copy_from_slice(&plan[..places]);
    }
}
