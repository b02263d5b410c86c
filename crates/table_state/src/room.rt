//! How much room a group needs in a pool, and how much there is, in sectors. Who opens a group asks
//! for both, and answers want of room; its sync asks for neither.

ghost use Rattle.std.specs.Prelude.{◌≡◌, ◌≤◌, ◌<◌, ◌^◌, not, length};
ghost use Rattle.std.specs.List.{count_by};
ghost use Rattle.pool_model.specs.Space.{need, space_lacking};
ghost use Rattle.pool_model.specs.Table.{flush_limit};

use crate::pool::Pool;
use pool_model::Outcome;
use std::mem::size_of_val;

impl Pool {
    /// The number of the newest sealed group.
    pub fn group(&self) -> u64
        ensures { result ≡ self.now.group }
    {
        self.sealed
    }

    /// How many sectors the pages of the newest sealed image take.
    pub fn pages(&self) -> u64
        ensures count { result ≡ length self.now.pages }
        ensures few { result < 2 ^ 61 }
    {
        count_sectors(self.pages.as_slice())
    }

    /// How many sectors nothing uses.
    pub fn free(&self) -> u64
        ensures { result ≡ count_by not self.now.used }
    {
        self.book.free()
    }

    /// How many sectors have to be free for a group of so many commands that may change a slot or the
    /// table, so many of them writes. Where fewer are free, whoever opens the group answers want of room.
    pub fn need(&self, commands: u64, writes: u64) -> u64
        requires commands_fit { commands ≤ 1_048_576 }
        requires writes_fit { writes ≤ 1_048_576 }
        ensures { result ≡ need (length self.now.pages) (flush_limit self.now.table) commands writes }
    {
        let growth = 3 * self.table.flush_limit() + 200;
        let metadata = self.pages() + 6 * commands + growth;
        if writes == 0 {
            return metadata;
        }
        writes + 2 * metadata + growth + 6
    }

    /// The outcome of a group of so many commands, so many of them writes, for which too few sectors are free;
    /// nothing where there is room.
    pub fn no_space(&self, commands: u64, writes: u64) -> Option<Outcome>
        requires commands_fit { commands ≤ 1_048_576 }
        requires writes_fit { writes ≤ 1_048_576 }
        ensures { result ≡ space_lacking (count_by not self.now.used) (need (length self.now.pages) (flush_limit self.now.table) commands writes) }
    {
        let free = self.free();
        let need = self.need(commands, writes);
        if need > free {
            return Some(Outcome::NoSpace { need, free });
        }
        None
    }
}

/// How many sectors are listed. Their numbers have eight bytes each, and all bytes of a list can be counted.
fn count_sectors(sectors: &[u64]) -> u64
    ensures count { result ≡ length sectors.now }
    ensures few { result < 2 ^ 61 }
{
    size_of_val(sectors) as u64 / 8
}
