ghost use Rattle.std.specs.Prelude.{◌≡◌};
ghost use Rattle.disk_model.specs.Images.{Image};
ghost use Rattle.pool_model.specs.Pool.{Pool as PoolModel};
ghost use Rattle.pool_model.specs.Stats.{stats_of};
ghost use Rattle.pool_model.specs.Table.{TableState};
ghost use Rattle.table_state.specs.Pools.{IsHeld};

use crate::table::DedupTable;
use grant_book::GrantBook;
use page_tree::SectorList;
use pool_model::{Mode, Stats};
use pool_stats::RunningTotals;
use slot_table::SlotMap;
use std::marker::Model;

/// A pool in memory, as the newest sealed group left it.
#[derive(Drop)]
pub struct Pool {
    /// The slots that hold a pointer, in rising order of lane and slot.
    pub slots: SlotMap,
    /// The dedup table with its logs.
    pub table: DedupTable,
    /// How many homes the table finds that are counted.
    pub keys: u64,
    /// The sums over these homes.
    pub totals: RunningTotals,
    /// The sectors of the image's metadata pages.
    pub pages: SectorList,
    /// Which sectors the ring, a page, a pointer or a waiting home names.
    pub book: GrantBook,
    /// The mode of each lane.
    pub modes: [Mode; 16],
    /// The quota, in bytes at 256 a key.
    pub limit: Option<u64>,
    /// The tag of the key function: 1 for SHA-256.
    pub tag: u8,
    /// The number of the newest sealed group.
    pub sealed: u64,
    /// How many sectors the pool has.
    pub sectors: u64,
}

impl Model for Pool {
    ghost use Rattle.table_state.specs.Pools.{Held};

    ghost Value = { Held };

    ghost view = { λ pool. record {
      slots = pool.slots;
      table = pool.table.table;
      logs = pool.table.logs;
      keys = pool.keys;
      totals = pool.totals;
      pages = pool.pages.items;
      used = pool.book.used;
      pending = pool.book.pending;
      modes = pool.modes;
      quota = pool.limit;
      tag = pool.tag;
      group = pool.sealed;
      sectors = pool.sectors;
    } };
}

impl Pool {
    /// What `stat` prints, by kept numbers. Takes no memory.
    pub fn stats(&self) -> Stats
        ensures { (image : Image) (p : PoolModel) (table : TableState) → IsHeld image self.now p table → result ≡ stats_of p }
    {
        self.totals.stats(self.slots.len(), self.slots.plain())
    }
}
