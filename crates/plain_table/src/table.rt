ghost use Rattle.std.specs.Prelude.{◌≡◌, IfOk};
ghost use Rattle.pool_model.specs.Table.{empty_table, entry_at, found_over, found};

use crate::change_map::ChangeMap;
use crate::home_map::HomeMap;
use ddt_entry::{Change, Entry, Home, Key};
use std::alloc::{AllocError, Global};
use std::marker::Model;

/// The dedup table with its two logs, each an ordered map by key.
#[derive(Drop)]
pub struct PlainTable {
    /// The stored homes, with counts above 0.
    pub zap: HomeMap,
    /// The log that is being flushed.
    pub flush: ChangeMap,
    /// The log that grows.
    pub active: ChangeMap,
    /// For how many groups the active log has grown.
    pub age: u64,
    /// The last key that left the flushing log, while something is left of it.
    pub checkpoint: Option<Key>,
}

impl Model for PlainTable {
    ghost use Rattle.pool_model.specs.Table.{TableState};

    ghost Value = { TableState };

    ghost use Rattle.plain_table.specs.Tables.{table_of};

    ghost view = { table_of };
}

impl PlainTable {
    /// The table that a new image has.
    pub fn new(alloc: Global) -> PlainTable
        ensures { result ≡ empty_table }
    {
        PlainTable {
            zap: HomeMap::new(alloc),
            flush: ChangeMap::new(alloc),
            active: ChangeMap::new(alloc),
            age: 0,
            checkpoint: None,
        }
    }

    /// Another table that says the same.
    pub fn copied(&self, alloc: Global) -> Result<PlainTable, AllocError>
        ensures { IfOk result (λ copy. copy ≡ self.now) }
    {
        Ok(PlainTable {
            zap: self.zap.copied(alloc)?,
            flush: self.flush.copied(alloc)?,
            active: self.active.copied(alloc)?,
            age: self.age,
            checkpoint: self.checkpoint,
        })
    }

    /// The home of a key: by the active log, then by the flushing log, then by the stored table.
    pub fn found(&self, key: &Key) -> Option<Home>
        ensures { result ≡ found self.now key.now }
    {
        let stored = self.zap.find(key);
        let flushing = found_over(stored, self.flush.get(key).copied());
        found_over(flushing, self.active.get(key).copied())
    }
}

/// A change's home, or else what stands below it.
pub fn found_over(below: Option<Home>, change: Option<Change>) -> Option<Home>
    ensures { result ≡ found_over below change }
{
    match change {
        None => below,
        Some(Change::Entry(entry)) => Some(entry.home),
        Some(Change::Gone(_)) => None,
    }
}
