//! One log, as a list that is appended to, replayed and emptied.

use crate::comparing::assert_same;
use crate::parts::{Reader, entry, key, reader_of};
use ddt_entry::{Change, Key};
use disk_model::MemDisk;
use log_object::LogObject;
use page_tree::PageFault;
use std::alloc::Global;
use std::process::Abort;
use std::test::Fail;

/// Three changes, of which two are of one key.
fn three() -> [Change; 3] {
    [
        Change::Entry(entry(5, 40, 1)),
        Change::Gone(key(4)),
        Change::Entry(entry(5, 40, 2)),
    ]
}

/// Appends the three changes.
fn append_three(log: &mut LogObject, disk: &MemDisk, reader: &mut Reader) -> Result<(), PageFault> {
    for change in three() {
        log.append(disk, reader, &change)?;
    }
    Ok(())
}

/// Sees what a log is replayed to, how many changes it has, and its checkpoint.
fn assert_log(
    rt: &impl Abort,
    alloc: Global,
    log: &LogObject,
    disk: &MemDisk,
    reader: &mut Reader,
    wanted: &[Change],
    checkpoint: Option<Key>,
) -> Result<(), PageFault> {
    let listed = log.replay(alloc, disk, reader)?;
    assert_same(rt, "the changes", listed.as_slice(), wanted);
    assert_same(rt, "how many", log.changes(), wanted.len() as u64);
    assert_same(rt, "the checkpoint", log.checkpoint(), checkpoint);
    Ok(())
}

/// Empties a log, and sees that it has its checkpoint still, and then what is appended.
fn assert_emptied(
    rt: &impl Abort,
    alloc: Global,
    log: &mut LogObject,
    disk: &MemDisk,
    reader: &mut Reader,
) -> Result<(), PageFault> {
    log.set_checkpoint(Some(key(3)));
    log.clear(disk, reader)?;
    assert_log(rt, alloc, log, disk, reader, &[], Some(key(3)))?;
    log.set_checkpoint(None);
    log.append(disk, reader, &Change::Gone(key(9)))?;
    let wanted = [Change::Gone(key(9))];
    assert_log(rt, alloc, log, disk, reader, &wanted, None)
}

#[test]
fn a_log_has_all_changes_until_it_is_emptied(rt: HostRuntime) -> Result<(), Fail> {
    let mut disk = MemDisk::new(rt.alloc(), 8)?;
    let mut reader = reader_of(&mut disk)?;
    let mut log = LogObject::of_root(rt.alloc(), None, 0, Some(key(2)));
    append_three(&mut log, &disk, &mut reader)?;
    let checkpoint = Some(key(2));
    assert_log(
        &rt,
        rt.alloc(),
        &log,
        &disk,
        &mut reader,
        &three(),
        checkpoint,
    )?;
    assert_emptied(&rt, rt.alloc(), &mut log, &disk, &mut reader)?;
    Ok(())
}
