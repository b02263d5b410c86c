ghost use Rattle.std.specs.Prelude.{◌≡◌, ◌≤◌, [], length, None, IfOk, IfErr, OnOk, OnErr};
ghost use Rattle.page_tree.specs.declared.fault.PageFault.TheVariants.{Memory};
ghost use Rattle.log_object.specs.Logged.{with_change, with_checkpoint, cleared};

use ddt_entry::{Change, Key};
use disk_model::Disk;
use page_tree::{PageFault, PagePtr, PageReader};
use pool_model::ChangeList;
use std::alloc::Global;
use std::marker::Model;

/// One log of the dedup table.
#[derive(Drop)]
pub struct LogObject {
    changes: ChangeList,
    checkpoint: Option<Key>,
    alloc: Global,
}

impl Model for LogObject {
    ghost use Rattle.log_object.specs.Logged.{Logged};

    ghost Value = { Logged };

    ghost view = { λ log. record { changes = log.changes.items; checkpoint = log.checkpoint } };
}

impl LogObject {
    /// The log with this root page, so many changes and this checkpoint. A log is kept in memory for now,
    /// so it has no root and no changes here. Takes no memory.
    pub fn of_root(
        alloc: Global,
        root: Option<PagePtr>,
        changes: u64,
        checkpoint: Option<Key>,
    ) -> LogObject
        requires root { root ≡ None }
        requires changes { changes ≡ 0 }
        ensures { result ≡ record { changes = []; checkpoint = checkpoint } }
    {
        LogObject {
            changes: ChangeList::new(alloc),
            checkpoint,
            alloc,
        }
    }

    /// Appends a change. The error is want of memory, and leaves the log as it was.
    pub fn append<D: Disk, P: PageReader<D>>(
        &mut self,
        disk: &D,
        reader: &mut P,
        change: &Change,
    ) -> Result<(), PageFault>
        requires fits { P.fits reader.old disk.now }
        ensures appended { OnOk result (self.new ≡ with_change change.now self.old) }
        ensures refused { OnErr result (self.new ≡ self.old) }
        ensures cause { IfErr result (λ fault. fault ≡ Memory) }
        ensures fits { P.fits reader.new disk.now }
        ensures count { P.faults reader.old ≤ P.faults reader.new }
    {
        self.changes.reserve(1)?;
        self.changes.push(*change);
        Ok(())
    }

    /// All changes in the order in which they were appended. The error is want of memory.
    pub fn replay<D: Disk, P: PageReader<D>>(
        &self,
        alloc: Global,
        disk: &D,
        reader: &mut P,
    ) -> Result<ChangeList, PageFault>
        requires fits { P.fits reader.old disk.now }
        ensures listed { IfOk result (λ list. list.items ≡ self.now.changes) }
        ensures cause { IfErr result (λ fault. fault ≡ Memory) }
        ensures fits { P.fits reader.new disk.now }
        ensures count { P.faults reader.old ≤ P.faults reader.new }
    {
        let changes = Vec::from_slice(alloc, self.as_slice())?;
        Ok(ChangeList::from_vec(changes))
    }

    /// Takes all changes away. The checkpoint stays. The error is want of memory, and leaves the log as
    /// it was.
    pub fn clear<D: Disk, P: PageReader<D>>(
        &mut self,
        disk: &D,
        reader: &mut P,
    ) -> Result<(), PageFault>
        requires fits { P.fits reader.old disk.now }
        ensures cleared { OnOk result (self.new ≡ cleared self.old) }
        ensures refused { OnErr result (self.new ≡ self.old) }
        ensures cause { IfErr result (λ fault. fault ≡ Memory) }
        ensures fits { P.fits reader.new disk.now }
        ensures count { P.faults reader.old ≤ P.faults reader.new }
    {
        self.changes = ChangeList::new(self.alloc);
        Ok(())
    }

    /// Notes how far the log has been flushed: to this key, or nowhere. Takes no memory.
    pub fn set_checkpoint(&mut self, key: Option<Key>)
        ensures { self.new ≡ with_checkpoint key self.old }
    {
        self.checkpoint = key;
    }

    /// The last key that has left the log, or `None` where it wasn't flushed. Takes no memory.
    pub fn checkpoint(&self) -> Option<Key>
        ensures { result ≡ self.now.checkpoint }
    {
        self.checkpoint
    }

    /// The changes, in the order in which they were appended. Takes no memory.
    pub fn as_slice(&self) -> &[Change]
        ensures { result.now ≡ self.now.changes }
    {
        self.changes.as_slice()
    }

    /// How many changes there are. Takes no memory.
    pub fn changes(&self) -> u64
        ensures { result ≡ length self.now.changes }
    {
        self.changes.len()
    }
}
