ghost use Rattle.std.specs.Prelude.{◌≡◌, ◌==◌, [], length, IfOk, if◌then◌else◌};
ghost use Rattle.pool_model.specs.Logs.{empty_logs};
ghost use Rattle.pool_model.specs.Replaying.{sync_logged};
ghost use Rattle.plain_table.specs.Logged.{logged_of, logs_by};

use crate::table::PlainTable;
use ddt_entry::Change;
use std::alloc::{AllocError, Global};
use std::marker::Model;

/// The changes that were appended to each of the two logs since it was last empty.
#[derive(Drop)]
pub struct KeptLogs {
    /// The active log, which grows.
    pub active: Vec<Change>,
    /// The log that is being flushed. It is kept whole until nothing is left to flush.
    pub flushing: Vec<Change>,
}

impl Model for KeptLogs {
    ghost use Rattle.pool_model.specs.Logs.{Logs};

    ghost Value = { Logs };

    ghost view = { λ logs. record { active = logs.active.items; flushing = logs.flushing.items } };
}

impl KeptLogs {
    /// Logs without changes. Takes no memory.
    pub fn new(alloc: Global) -> KeptLogs
        ensures { result ≡ empty_logs }
    {
        KeptLogs {
            active: Vec::new(alloc),
            flushing: Vec::new(alloc),
        }
    }
}

/// A table with its logs.
#[derive(Drop)]
pub struct LoggedPlainTable {
    /// What is found of each key.
    pub table: PlainTable,
    /// The changes that were appended to its logs.
    pub logs: KeptLogs,
}

/// The table and its logs after a group with these changes. The error is want of memory.
pub fn sync_logged(
    alloc: Global,
    table: &PlainTable,
    logs: &KeptLogs,
    changes: &[Change],
) -> Result<LoggedPlainTable, AllocError>
    ensures { IfOk result (λ after. logged_of after ≡ sync_logged changes.now (record { table = table.now; logs = logs.now })) }
{
    let copy = table.copied(alloc)?;
    let after = copy.sync_table(alloc, changes)?;
    let logs = logs_after(alloc, logs, changes, &after)?;
    Ok(LoggedPlainTable { table: after, logs })
}

/// The logs after a sync with these changes that left this table: where they were swapped in it, its age is 0.
fn logs_after(
    alloc: Global,
    logs: &KeptLogs,
    changes: &[Change],
    after: &PlainTable,
) -> Result<KeptLogs, AllocError>
    ensures { IfOk result (λ kept. kept ≡ logs_by after.now changes.now logs.now) }
{
    let mut grown = Vec::from_slice(alloc, logs.active.as_slice())?;
    grown.extend_from_slice(changes)?;
    if after.age == 0 {
        return Ok(KeptLogs {
            active: Vec::new(alloc),
            flushing: grown,
        });
    }
    Ok(KeptLogs {
        active: grown,
        flushing: still_flushing(alloc, logs, after)?,
    })
}

/// The flushing log, which is emptied where nothing is left to flush.
fn still_flushing(
    alloc: Global,
    logs: &KeptLogs,
    after: &PlainTable,
) -> Result<Vec<Change>, AllocError>
    ensures { IfOk result (λ flushing. flushing.items ≡ (if length after.now.flush == 0 then [] else logs.now.flushing)) }
{
    if after.flush.len() == 0 {
        return Ok(Vec::new(alloc));
    }
    Vec::from_slice(alloc, logs.flushing.as_slice())
}
