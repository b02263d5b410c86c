//! The sync of a pool's table: a group's changes go to the active log, some of the flushing log comes to the stored
//! homes, and the logs are swapped where that is due. The table is changed in place.

ghost use Rattle.std.specs.Prelude.{◌≡◌, ◌<◌, [], List, fold, OnOk};
ghost use Rattle.ddt_entry.specs.declared.entry.Entry.{Entry as Stored};
ghost use Rattle.log_flush.specs.Flushing.{IsSecondStep};
ghost use Rattle.log_pair.specs.Paired.{as_table};
ghost use Rattle.pool_model.specs.Table.{IsTable, counted_homes, home_in, is_due};
ghost use Rattle.pool_model.specs.Replaying.{sync_logged};
ghost use Rattle.table_state.specs.Kept.{kept_in};
ghost use Rattle.pool_stats.specs.Totals.{count_in, totals_in};
ghost use Rattle.txg_sync.specs.TableSteps.{counted_change, third_step};

use ddt_class::Classes;
use ddt_entry::{Change, Home, key_of};
use disk_model::Disk;
use log_flush::flush;
use log_pair::LogPair;
use page_tree::NoPages;
use plain_table::{SWAP_AGE, SWAP_KEYS};
use pool_stats::RunningTotals;
use std::alloc::{AllocError, Global};
use table_state::{DedupTable, found_in};

/// The table after a group with these changes, in the place of the one before, and the sums over its counted homes. No
/// sector is read, since the table is held in memory. The error is want of memory; both are then given up.
pub fn sync_table<D: Disk>(
    alloc: Global,
    table: &mut DedupTable,
    totals: &mut RunningTotals,
    disk: &D,
    changes: &[Change],
) -> Result<(), AllocError>
    ensures kept { OnOk result (table.new ≡ sync_logged changes.now table.old) }
    ensures totals { IsTable table.old.table → totals.old ≡ totals_in (counted_homes table.old.table)
        → OnOk result (totals.new ≡ totals_in (counted_homes table.new.table)) }
{
    let limit = table.flush_limit();
    append_all(&table.classes, &mut table.logs, totals, disk, changes)?;
    flush_some(alloc, &mut table.classes, &mut table.logs, disk, limit)?;
    table.age = swap_due(&mut table.logs, table.age);
    Ok(())
}

/// How many pointers are counted at a home, where there is one.
fn count_at(home: Option<Home>) -> u64
    ensures { result ≡ count_in home }
{
    match home {
        Some(home) => home.count,
        None => 0,
    }
}

/// How many pointers a change counts.
fn count_by(change: &Change) -> u64
    ensures { result ≡ count_in (home_in change.now) }
{
    match change {
        Change::Entry(entry) => entry.home.count,
        Change::Gone(_) => 0,
    }
}

/// One change: the count of its key changes, and it goes to the active log. The error is want of memory.
fn append_one<D: Disk>(
    classes: &Classes,
    logs: &mut LogPair,
    totals: &mut RunningTotals,
    disk: &D,
    change: &Change,
) -> Result<(), AllocError>
    ensures { OnOk result (record { pair = logs.new; totals = totals.new }
        ≡ counted_change classes.now (record { pair = logs.old; totals = totals.old }) change.now) }
{
    let key = key_of(change);
    let before = count_at(found_in(classes, logs, &key));
    totals.change(key.len, before, count_by(change));
    let mut reader = NoPages::new();
    let Ok(()) = logs.append(disk, &mut reader, *change) else {
        return Err(AllocError);
    };
    Ok(())
}

/// First step: each change goes to the active log, and its key leaves the flushing one. The error is want of memory.
fn append_all<D: Disk>(
    classes: &Classes,
    logs: &mut LogPair,
    totals: &mut RunningTotals,
    disk: &D,
    changes: &[Change],
) -> Result<(), AllocError>
    ensures { OnOk result (record { pair = logs.new; totals = totals.new }
        ≡ fold (counted_change classes.now) (record { pair = logs.old; totals = totals.old }) changes.now) }
{
    'changes: for change in changes {
        append_one(classes, logs, totals, disk, change)?;
    }
    Ok(())
}

/// Second step: the first so many changes of the flushing log come to the stored homes. The error is want of memory.
fn flush_some<D: Disk>(
    alloc: Global,
    classes: &mut Classes,
    logs: &mut LogPair,
    disk: &D,
    limit: u64,
) -> Result<(), AllocError>
    requires some { 0 < limit }
    ensures { OnOk result (IsSecondStep limit classes.old logs.old classes.new logs.new) }
{
    let mut reader = NoPages::new();
    let Ok(_places) = flush(alloc, classes, logs, disk, &mut reader, limit) else {
        return Err(AllocError);
    };
    Ok(())
}

/// Third step: the active log, which has grown for so many groups, is a group older, and becomes the flushing one where
/// it is due. Answers its age then, which stops at the end of its type.
fn swap_due(logs: &mut LogPair, age: u64) -> u64
    requires emptied { logs.old.flush ≡ [] → logs.old.logs.flushing ≡ [] }
    ensures { (zap : List Stored) → kept_in zap logs.new result ≡ third_step (kept_in zap logs.old age) }
{
    let aged = age.saturating_add(1);
    if !is_due(logs, aged) {
        return aged;
    }
    logs.swap();
    0
}

/// Whether an active log of this age has to be flushed and can be.
fn is_due(logs: &LogPair, age: u64) -> bool
    ensures { result ≡ is_due (record (as_table logs.now) { age = age }) }
{
    if logs.len(1) != 0 || logs.len(0) == 0 {
        return false;
    }
    logs.len(0) >= SWAP_KEYS || age >= SWAP_AGE
}
