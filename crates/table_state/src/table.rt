ghost use Rattle.std.specs.Prelude.{◌≡◌, ◌≤◌, ◌+◌, ◌/◌, ◌^◌, IfOk};
ghost use Rattle.pool_model.specs.Logs.{empty_logs};
ghost use Rattle.pool_model.specs.Table.{empty_table, entries_found, flush_limit, found};
ghost use Rattle.table_state.specs.Kept.{kept_in};

use ddt_class::Classes;
use ddt_entry::{Entry, Home, Key};
use log_pair::LogPair;
use plain_table::found_over;
use std::alloc::{AllocError, Global};
use std::marker::Model;

/// The dedup table: the stored homes in their two classes, and the two logs over them.
#[derive(Drop)]
pub struct DedupTable {
    /// The stored homes, with counts above 0.
    pub classes: Classes,
    /// The active log, and the log that is being flushed.
    pub logs: LogPair,
    /// For how many groups the active log has grown.
    pub age: u64,
}

impl Model for DedupTable {
    ghost use Rattle.pool_model.specs.Replaying.{LoggedTable};

    ghost Value = { LoggedTable };

    ghost use Rattle.table_state.specs.Kept.{kept_in};

    ghost view = { λ table. kept_in table.classes table.logs table.age };
}

/// The home of a key in a table of these stored homes and logs. Takes no memory.
pub fn found_in(classes: &Classes, logs: &LogPair, key: &Key) -> Option<Home>
    ensures { result ≡ found (kept_in classes.now logs.now 0).table key.now }
{
    let stored = classes.home_of(key);
    let flushing = found_over(stored, logs.get(1, key).copied());
    found_over(flushing, logs.get(0, key).copied())
}

impl DedupTable {
    /// The table of a new pool. Takes no memory.
    pub fn new(alloc: Global) -> DedupTable
        ensures { result ≡ record { table = empty_table; logs = empty_logs } }
    {
        DedupTable {
            classes: Classes::new(alloc),
            logs: LogPair::new(alloc),
            age: 0,
        }
    }

    /// The home of a key: by the active log, then by the flushing log, then by the stored homes. Takes no memory.
    pub fn found(&self, key: &Key) -> Option<Home>
        ensures { result ≡ found self.now.table key.now }
    {
        found_in(&self.classes, &self.logs, key)
    }

    /// All homes that the table finds, sorted by key. The error is want of memory.
    pub fn homes(&self, alloc: Global) -> Result<Vec<Entry>, AllocError>
        ensures { IfOk result (λ homes. homes.items ≡ entries_found self.now.table) }
    {
        self.classes.is_table();
        let stored = self.classes.listed(alloc)?;
        self.logs.homes_found(alloc, stored.as_slice())
    }

    /// How many changes the next sync flushes. Takes no memory.
    pub fn flush_limit(&self) -> u64
        ensures count { result ≡ flush_limit self.now.table }
        ensures few { result ≤ 64 + 2 ^ 60 }
    {
        64 + self.logs.len(1) / 8
    }
}
