ghost use Rattle.std.specs.Prelude.{◌≡◌, ◌+◌, ◌/◌, IfOk, OnOk, take, drop, fold};
ghost use Rattle.std.specs.List.{last_or};
ghost use Rattle.std.specs.Option.{option_map};
ghost use Rattle.ddt_entry.specs.Changes.{key_in};
ghost use Rattle.pool_model.specs.Table.{log_change, logged, flush_entry, checkpoint_after, flushed, is_due, aged, swapped, flush_limit, sync_table};

use crate::change_map::ChangeMap;
use crate::home_map::HomeMap;
use crate::table::PlainTable;
use ddt_entry::{Change, Key, key_of};
use std::alloc::{AllocError, Global};

/// For how many groups an active log may grow before it is flushed.
pub const SWAP_AGE: u64 = 8;

/// How many keys an active log may have before it is flushed.
pub const SWAP_KEYS: u64 = 1000;

impl PlainTable {
    /// The table after a group with these changes.
    pub fn sync_table(self, alloc: Global, changes: &[Change]) -> Result<PlainTable, AllocError>
        ensures { IfOk result (λ table. table ≡ sync_table changes.now self) }
    {
        let limit = self.flush_limit();
        let flushed = self.logged(changes)?.flushed(alloc, limit)?;
        Ok(flushed.swapped(alloc))
    }

    /// How many changes a sync flushes.
    fn flush_limit(&self) -> u64
        ensures { result ≡ flush_limit self.now }
    {
        64 + self.flush.len() / 8
    }

    /// First step of a sync: each change goes to the active log.
    fn logged(self, changes: &[Change]) -> Result<PlainTable, AllocError>
        ensures { IfOk result (λ table. table ≡ logged changes.now self) }
    {
        let mut table = self;
        for change in changes {
            table = table.log_change(*change)?;
        }
        Ok(table)
    }

    /// A change goes to the active log, and its key leaves the flushing log.
    fn log_change(mut self, change: Change) -> Result<PlainTable, AllocError>
        ensures { IfOk result (λ table. table ≡ log_change self change) }
    {
        self.flush.remove(&key_of(&change));
        self.active.set(change)?;
        Ok(self)
    }

    /// Second step: the first so many changes of the flushing log come to the stored table.
    fn flushed(mut self, alloc: Global, limit: u64) -> Result<PlainTable, AllocError>
        ensures { IfOk result (λ table. table ≡ flushed limit self) }
    {
        let left = take_first(alloc, &mut self.flush, limit)?;
        all_flushed(&mut self.zap, left.as_slice())?;
        self.checkpoint = checkpoint_after(left.as_slice(), &self.flush);
        Ok(self)
    }

    /// Third step: the active log is a group older, and becomes the flushing one when it is due.
    fn swapped(self, alloc: Global) -> PlainTable
        ensures { result ≡ swapped self }
    {
        let table = self.aged();
        if !table.is_due() {
            return table;
        }
        PlainTable {
            zap: table.zap,
            flush: table.active,
            active: ChangeMap::new(alloc),
            age: 0,
            checkpoint: None,
        }
    }

    /// The table with an active log that is a group older. The age stops at the end of its type.
    fn aged(mut self) -> PlainTable
        ensures { result ≡ aged self }
    {
        self.age = self.age.saturating_add(1);
        self
    }

    /// Whether the active log has to be flushed and can be.
    fn is_due(&self) -> bool
        ensures { result ≡ is_due self.now }
    {
        if self.flush.len() != 0 || self.active.len() == 0 {
            return false;
        }
        self.active.len() >= SWAP_KEYS || self.age >= SWAP_AGE
    }
}

/// Takes the first so many changes out of a log, or all where there are fewer. The error is want of memory.
fn take_first(alloc: Global, log: &mut ChangeMap, limit: u64) -> Result<Vec<Change>, AllocError>
    ensures left { IfOk result (λ left. left.items ≡ take limit log.old) }
    ensures rest { OnOk result (log.new ≡ drop limit log.old) }
{
    let count = limit.min(log.len());
    let mut left = Vec::new(alloc);
    'changes: for _ in 0..count {
        if let Some(change) = log.pop_first() {
            left.push(change)?;
        }
    }
    Ok(left)
}

/// What a flushed change makes of the stored table: a home that is counted is set, any other goes.
fn flush_entry(zap: &mut HomeMap, change: &Change) -> Result<(), AllocError>
    ensures { OnOk result (zap.new ≡ flush_entry zap.old change.now) }
{
    match change {
        Change::Entry(entry) if entry.home.count > 0 => {
            zap.set(&entry.key, entry.home)?;
        }
        Change::Entry(entry) => {
            zap.take_out(&entry.key);
        }
        Change::Gone(key) => {
            zap.take_out(key);
        }
    }
    Ok(())
}

/// What these flushed changes make of the stored table.
fn all_flushed(zap: &mut HomeMap, left: &[Change]) -> Result<(), AllocError>
    ensures { OnOk result (zap.new ≡ fold flush_entry zap.old left.now) }
{
    'changes: for change in left {
        flush_entry(zap, change)?;
    }
    Ok(())
}

/// How far a flushing log has been flushed: to the last key that left, or nowhere where nothing is left.
fn checkpoint_after(left: &[Change], rest: &ChangeMap) -> Option<Key>
    ensures { result ≡ checkpoint_after left.now rest.now }
{
    if rest.len() == 0 {
        return None;
    }
    last_key(left)
}

/// The key of the last of these changes.
fn last_key(changes: &[Change]) -> Option<Key>
    ensures { result ≡ option_map key_in (last_or None changes.now) }
{
    let mut last = None;
    for change in changes {
        last = Some(key_of(change));
    }
    last
}
