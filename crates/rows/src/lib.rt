// The row table: for each row the choice over the working servers and a flag, filled anew with each
// roster change and read by each packet without a record.

#![tactic(auto)]

ghost use Rattle.std.specs.Prelude.{◌≡◌, min};
ghost use Rattle.sets.specs.Sets.{in_state, working, standby};
ghost use Rattle.rows.specs.Rows.{filled, cleared, row_read};
ghost use Rattle.rows.specs.Lent.{rows_in, rows_seen, SameLists};

use lists::Movers;
use ranking::Pick;

// How many places rows and flags have.
pub const ROW_PLACES: usize = 4096;

// Rows that are lent: the server of each, and its flag at the same place of the other list.
#[derive(Drop)]
pub struct RowTable<'a> {
    pub servers: &'a mut [u32],
    pub flags: &'a mut [u8],
}

// Rows that are lent to be read alone.
#[derive(Clone, Copy)]
pub struct RowView<'a> {
    pub servers: &'a [u32],
    pub flags: &'a [u8],
}

impl RowTable<'_> {
    // Fills the first `count` rows for the servers in states 1 (working) and 2 (horizon). In each row
    // every weight is computed once: the working servers' for the choice, then the horizon servers'
    // up to the first that outranks it.
    // Stays (2): `hrw::pick` would do, but document 01 names this form, "the inner search is left by a labelled break".
    pub fn fill(&mut self, count: u16, movers: Movers)
        ensures same { SameLists self.old self.new }
        ensures filled { rows_in self.new
            ≡ filled count (in_state working movers.entry.servers.now movers.entry.states.now) (in_state standby movers.entry.servers.now movers.entry.states.now)
            (rows_in self.old) }
    {
        let servers = &mut *self.servers;
        let flags = &mut *self.flags;
        for r in 0..in_use(count, servers.len(), flags.len()) {
            let digest = r as u32;
            let mut server = 0;
            let mut flag = 0;
            if let Some(best) = hrw::choose(movers, digest) {
                server = best.server;
                'search: for (&standby, &state) in movers.servers.iter().zip(movers.states) {
                    if state == sets::STANDBY
                        && ranking::heavier(
                            hash::weight(standby, digest),
                            standby,
                            best.measure,
                            best.server,
                        )
                    {
                        flag = 1;
                        break 'search;
                    }
                }
            }
            servers[r] = server;
            flags[r] = flag;
        }
    }

    // Zeroes the first `count` rows and their flags.
    #[tactic(auto, unfolding(crate::specs::Rows::cleared))]
    pub fn clear(&mut self, count: u16)
        ensures same { SameLists self.old self.new }
        ensures cleared { rows_in self.new ≡ cleared count (rows_in self.old) }
    {
        let servers = &mut *self.servers;
        let flags = &mut *self.flags;
        let n = in_use(count, servers.len(), flags.len());
        servers[..n].fill(0);
        flags[..n].fill(0);
    }

    // The rows, to be read alone.
    pub fn view(&self) -> RowView<'_>
        ensures servers { result.servers.now ≡ self.now.servers.now }
        ensures flags { result.flags.now ≡ self.now.flags.now }
    {
        RowView {
            servers: &*self.servers,
            flags: &*self.flags,
        }
    }

    // What a key reads, whose F is f.
    pub fn read(&self, count: u16, f: u32) -> Pick
        ensures { result ≡ row_read count f (rows_in self.now) }
    {
        self.view().read(count, f)
    }
}

impl RowView<'_> {
    // What a key reads, whose F is f: the server and the flag of its row.
    #[tactic(auto, unfolding(crate::specs::Rows::row_read))]
    pub fn read(self, count: u16, f: u32) -> Pick
        ensures { result ≡ row_read count f (rows_seen self.entry) }
    {
        if count == 0 {
            return Pick {
                server: 0,
                flag: false,
            };
        }
        let row = (f % u32::from(count)) as usize;
        Pick {
            server: self.servers.get(row).copied().unwrap_or(0),
            flag: self.flags.get(row).copied().unwrap_or(0) != 0,
        }
    }
}

// The rows in use: as many as are counted, where both lists have them.
fn in_use(count: u16, rows: usize, flags: usize) -> usize
    ensures { result ≡ min count (min rows flags) }
{
    usize::from(count).min(rows.min(flags))
}
