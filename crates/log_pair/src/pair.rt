ghost use Rattle.std.specs.Prelude.{◌≡◌, ◌≤◌, ◌<◌, ◌^◌, [], fold, length, slice_get, Some, None, IfOk, IfErr, OnOk, OnErr};
ghost use Rattle.std.specs.Option.{option_copied};
ghost use Rattle.std.specs.Map.Iter.{ShowsInOrder, deref};
ghost use Rattle.ddt_entry.specs.declared.entry.Change.{Change as Changed};
ghost use Rattle.page_tree.specs.declared.fault.PageFault.TheVariants.{Memory};
ghost use Rattle.pool_model.specs.Table.{AreRising, change_at, set_found};
ghost use Rattle.pool_model.specs.Logs.{empty_logs};
ghost use Rattle.plain_table.specs.Keyed.{first};
ghost use Rattle.log_pair.specs.Paired.{IsReplayed, of_logs, with_change, popped, emptied_pair, swapped_pair, list_at, log_at};

use ddt_entry::{Change, Entry, Key, key_of};
use disk_model::Disk;
use log_object::LogObject;
use page_tree::{PageFault, PageReader};
use plain_table::{ChangeMap, laid_over, last_changes, left_in};
use std::alloc::{AllocError, Global};
use std::collections::btree_map::Values;
use std::marker::Model;
use std::mem::swap;

/// The two logs of the dedup table.
#[derive(Drop)]
pub struct LogPair {
    active: ChangeMap,
    flush: ChangeMap,
    active_log: LogObject,
    flushing_log: LogObject,
}

impl Model for LogPair {
    ghost use Rattle.log_pair.specs.Paired.{Paired, pair_of, IsReplayed};

    ghost Value = { Paired };

    ghost view = { λ pair. pair_of pair.active pair.flush pair.active_log pair.flushing_log };

    ghost invariant = { λ pair. IsReplayed (pair_of pair.active pair.flush pair.active_log pair.flushing_log) };
}

impl LogPair {
    /// The pair of two logs without changes. Takes no memory.
    pub fn new(alloc: Global) -> LogPair
        ensures { result ≡ record { active = []; flush = []; logs = empty_logs; checkpoint = None } }
    {
        LogPair {
            active: ChangeMap::new(alloc),
            flush: ChangeMap::new(alloc),
            active_log: LogObject::of_root(alloc, None, 0, None),
            flushing_log: LogObject::of_root(alloc, None, 0, None),
        }
    }

    /// The homes that are found where these are stored, which rise by key: the flushing list lies over them, and
    /// the active list over that. The error is want of memory.
    pub fn homes_found(&self, alloc: Global, stored: &[Entry]) -> Result<Vec<Entry>, AllocError>
        requires { AreRising stored.now }
        ensures { IfOk result (λ found. found.items ≡ fold set_found (fold set_found stored.now self.now.flush) self.now.active) }
    {
        let flushed = laid_over(alloc, stored, &self.flush)?;
        laid_over(alloc, flushed.as_slice(), &self.active)
    }

    /// The pair of these logs, with the lists that they are replayed to. The error is want of memory.
    pub fn replay<D: Disk, P: PageReader<D>>(
        alloc: Global,
        active: LogObject,
        flushing: LogObject,
        disk: &D,
        reader: &mut P,
    ) -> Result<LogPair, PageFault>
        requires fits { P.fits reader.old disk.now }
        ensures replayed { IfOk result (λ pair. pair ≡ of_logs active flushing) }
        ensures cause { IfErr result (λ fault. fault ≡ Memory) }
        ensures fits { P.fits reader.new disk.now }
        ensures count { P.faults reader.old ≤ P.faults reader.new }
    {
        let changes = active.replay(alloc, disk, reader)?;
        let last = last_changes(alloc, changes.as_slice())?;
        let flushed = flushing.replay(alloc, disk, reader)?;
        let left = left_in(alloc, &flushing.checkpoint(), &last, flushed.as_slice())?;
        Ok(LogPair {
            active: last,
            flush: left,
            active_log: active,
            flushing_log: flushing,
        })
    }

    /// Whatever was done to a pair, its lists are what its logs are replayed to.
    pub fn replays(&self)
        ensures { IsReplayed self.now }
    {
        let _active = &self.active;
    }

    /// A change goes to the active log, and its key leaves `flush`. The error is want of memory, and leaves
    /// the pair as it was.
    pub fn append<D: Disk, P: PageReader<D>>(
        &mut self,
        disk: &D,
        reader: &mut P,
        change: Change,
    ) -> Result<(), PageFault>
        requires fits { P.fits reader.old disk.now }
        ensures appended { OnOk result (self.new ≡ with_change change self.old) }
        ensures refused { OnErr result (self.new ≡ self.old) }
        ensures cause { IfErr result (λ fault. fault ≡ Memory) }
        ensures fits { P.fits reader.new disk.now }
        ensures count { P.faults reader.old ≤ P.faults reader.new }
    {
        let before = self.active.set(change)?;
        if let Err(fault) = self.active_log.append(disk, reader, &change) {
            self.active.put_back(&change, before);
            return Err(fault);
        }
        self.flush.remove(&key_of(&change));
        Ok(())
    }

    /// Takes the change with the lowest key out of `flush`. Its key is the checkpoint from then on. Takes
    /// no memory.
    pub fn pop_flush(&mut self) -> Option<Change>
        ensures first { result ≡ first self.old.flush }
        ensures popped { self.new ≡ popped self.old }
    {
        let Some(change) = self.flush.pop_first() else {
            return None;
        };
        self.flushing_log.set_checkpoint(Some(key_of(&change)));
        Some(change)
    }

    /// Empties the flushing log, of which nothing may be left to flush. It has no checkpoint then. The
    /// error is want of memory, and leaves the pair as it was.
    pub fn empty_flushing<D: Disk, P: PageReader<D>>(
        &mut self,
        disk: &D,
        reader: &mut P,
    ) -> Result<(), PageFault>
        requires flush { self.old.flush ≡ [] }
        requires fits { P.fits reader.old disk.now }
        ensures emptied { OnOk result (self.new ≡ emptied_pair self.old) }
        ensures refused { OnErr result (self.new ≡ self.old) }
        ensures cause { IfErr result (λ fault. fault ≡ Memory) }
        ensures fits { P.fits reader.new disk.now }
        ensures count { P.faults reader.old ≤ P.faults reader.new }
    {
        self.flushing_log.clear(disk, reader)?;
        self.flushing_log.set_checkpoint(None);
        Ok(())
    }

    /// The active log becomes the flushing one, which has to be empty, and is empty itself then. Takes no
    /// memory.
    pub fn swap(&mut self)
        requires flush { self.old.flush ≡ [] }
        requires flushing { self.old.logs.flushing ≡ [] }
        ensures { self.new ≡ swapped_pair self.old }
    {
        swap(&mut self.active, &mut self.flush);
        self.active_log.set_checkpoint(None);
        swap(&mut self.active_log, &mut self.flushing_log);
    }

    /// The list with this number: 0 is `active`, 1 is `flush`.
    fn list(&self, at: u32) -> &ChangeMap
        requires { at < 2 }
        ensures { result.now ≡ list_at at self.now }
    {
        if at == 0 { &self.active } else { &self.flush }
    }

    /// The change of a key in `active` (0) or `flush` (1). Takes no memory.
    pub fn get(&self, at: u32, key: &Key) -> Option<&Change>
        requires { at < 2 }
        ensures { option_copied result ≡ change_at key.now (list_at at self.now) }
    {
        self.list(at).get(key)
    }

    /// How many changes are in `active` (0) or `flush` (1). Takes no memory.
    pub fn len(&self, at: u32) -> u64
        requires { at < 2 }
        ensures count { result ≡ length (list_at at self.now) }
        ensures small { result < 2 ^ 63 }
    {
        self.list(at).len()
    }

    /// The change at an index of `active` (0) or `flush` (1), counted from 0 in key order. It steps over
    /// all that stand before it: `walk` goes over a whole list. Takes no memory.
    pub fn change(&self, at: u32, index: u64) -> &Change
        requires list { at < 2 }
        requires index { index < length (list_at at self.now) }
        ensures { slice_get (list_at at self.now) index ≡ Some result.now }
    {
        self.list(at).at(index)
    }

    /// All changes of `active` (0) or `flush` (1), in key order. Takes no memory.
    pub fn walk(&self, at: u32) -> Values<'_, Key, Change>
        requires { at < 2 }
        ensures rest { result ≡ list_at at self.now }
        ensures runs { ShowsInOrder (deref {X = Changed}) }
    {
        self.list(at).walk()
    }

    /// The active log (0) or the flushing log (1): the changes that were appended to it since it was last
    /// empty, in their order. Takes no memory.
    pub fn kept(&self, at: u32) -> &[Change]
        requires { at < 2 }
        ensures { result.now ≡ log_at at self.now.logs }
    {
        if at == 0 {
            self.active_log.as_slice()
        } else {
            self.flushing_log.as_slice()
        }
    }

    /// How many changes were appended to the active log (0) or the flushing log (1) since it was last
    /// empty. Takes no memory.
    pub fn changes(&self, at: u32) -> u64
        requires { at < 2 }
        ensures { result ≡ length (log_at at self.now.logs) }
    {
        if at == 0 {
            self.active_log.changes()
        } else {
            self.flushing_log.changes()
        }
    }

    /// The last key that has left the flushing log, or `None` where none has since it was last swapped or
    /// emptied. Takes no memory.
    pub fn checkpoint(&self) -> Option<Key>
        ensures { result ≡ self.now.checkpoint }
    {
        self.flushing_log.checkpoint()
    }
}
