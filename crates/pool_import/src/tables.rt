ghost use Rattle.std.specs.Prelude.{◌≡◌, ◌<◌, fold, None, IfOk, OnOk};
ghost use Rattle.std.specs.List.{AllByRecursion};
ghost use Rattle.pool_model.specs.Table.{AreRising, set_entry};
ghost use Rattle.log_pair.specs.Paired.{of_logs};
ghost use Rattle.table_state.specs.SealForms.{checkpoint_in};
ghost use Rattle.table_state.specs.Flat.{HoldTogether, table_in, logs_in};

use crate::flat::FlatImage;
use ddt_class::Classes;
use ddt_entry::{Change, Entry, Key};
use disk_model::Disk;
use log_object::LogObject;
use log_pair::LogPair;
use page_tree::NoPages;
use std::alloc::{AllocError, Global};
use table_state::DedupTable;
use uber_ring::Seal;

/// The table of an image's parts, which keep their rules. No sector is read: what a flat image keeps is held in
/// memory. The error is want of memory.
pub fn table_of<D: Disk>(
    alloc: Global,
    disk: &D,
    seal: &Seal,
    flat: &FlatImage,
) -> Result<DedupTable, AllocError>
    requires together { HoldTogether seal.now flat.now }
    ensures { IfOk result (λ table. table ≡ record { table = table_in seal.now flat.now; logs = logs_in flat.now }) }
{
    let mut reader = NoPages::new();
    let unique = flat.unique.as_slice();
    let duplicate = flat.duplicate.as_slice();
    let classes = classes_of(alloc, disk, &mut reader, unique, duplicate)?;
    let logs = logs_of(alloc, disk, &mut reader, seal, flat)?;
    Ok(DedupTable {
        classes,
        logs,
        age: seal.age,
    })
}

/// The stored table: the entries of the second class are set among those of the first, one after another. The
/// error is want of memory.
fn classes_of<D: Disk>(
    alloc: Global,
    disk: &D,
    reader: &mut NoPages,
    unique: &[Entry],
    duplicate: &[Entry],
) -> Result<Classes, AllocError>
    requires rising { AreRising unique.now }
    requires unique { AllByRecursion (λ entry. 0 < entry.home.count) unique.now }
    requires duplicate { AllByRecursion (λ entry. 0 < entry.home.count) duplicate.now }
    ensures { IfOk result (λ classes. classes ≡ fold (λ entries entry. set_entry entry entries) unique.now duplicate.now) }
{
    let mut classes = Classes::new(alloc);
    put_all(&mut classes, disk, reader, unique)?;
    put_all(&mut classes, disk, reader, duplicate)?;
    Ok(classes)
}

/// Puts these entries, one after another. The error is want of memory.
fn put_all<D: Disk>(
    classes: &mut Classes,
    disk: &D,
    reader: &mut NoPages,
    entries: &[Entry],
) -> Result<(), AllocError>
    requires { AllByRecursion (λ entry. 0 < entry.home.count) entries.now }
    ensures { OnOk result (classes.new ≡ fold (λ entries entry. set_entry entry entries) classes.old entries.now) }
{
    'entries: for entry in entries {
        let Ok(()) = classes.put(disk, reader, &entry.key, entry.home) else {
            return Err(AllocError);
        };
    }
    Ok(())
}

/// The two logs, each as it was appended to, with the lists that they are replayed to. The error is want of memory.
fn logs_of<D: Disk>(
    alloc: Global,
    disk: &D,
    reader: &mut NoPages,
    seal: &Seal,
    flat: &FlatImage,
) -> Result<LogPair, AllocError>
    ensures { IfOk result (λ pair. pair ≡ of_logs (record { changes = flat.now.active; checkpoint = None })
        (record { changes = flat.now.flushing; checkpoint = checkpoint_in seal.now })) }
{
    let active = log_of(alloc, disk, reader, flat.active.as_slice(), None)?;
    let checkpoint = checkpoint_of(seal);
    let flushing = log_of(alloc, disk, reader, flat.flushing.as_slice(), checkpoint)?;
    let Ok(pair) = LogPair::replay(alloc, active, flushing, disk, reader) else {
        return Err(AllocError);
    };
    Ok(pair)
}

/// The log to which these changes were appended, which has been flushed so far. The error is want of memory.
fn log_of<D: Disk>(
    alloc: Global,
    disk: &D,
    reader: &mut NoPages,
    changes: &[Change],
    checkpoint: Option<Key>,
) -> Result<LogObject, AllocError>
    ensures { IfOk result (λ log. log ≡ record { changes = changes.now; checkpoint = checkpoint }) }
{
    let mut log = LogObject::of_root(alloc, None, 0, checkpoint);
    'changes: for change in changes {
        let Ok(()) = log.append(disk, reader, change) else {
            return Err(AllocError);
        };
    }
    Ok(log)
}

/// How far the flushing log has been flushed, by the seal.
fn checkpoint_of(seal: &Seal) -> Option<Key>
    ensures { result ≡ checkpoint_in seal.now }
{
    if seal.checkpoint_flag == 1 {
        Some(Key {
            digest: seal.checkpoint_digest,
            len: seal.checkpoint_len,
        })
    } else {
        None
    }
}
