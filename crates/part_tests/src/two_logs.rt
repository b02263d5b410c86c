//! The two logs, replayed, appended to, taken from, emptied and swapped.

use crate::comparing::{assert_same, assert_same_at};
use crate::parts::{Reader, entry, key, reader_of};
use ddt_entry::{Change, Key, key_of};
use disk_model::MemDisk;
use log_object::LogObject;
use log_pair::LogPair;
use page_tree::PageFault;
use std::alloc::Global;
use std::process::Abort;
use std::test::Fail;

/// The change that the key of this byte has such a home.
fn homed(byte: u8, place: u64) -> Change {
    Change::Entry(entry(byte, place, 1))
}

/// A log of these changes, with this checkpoint.
fn log_of(
    alloc: Global,
    disk: &MemDisk,
    reader: &mut Reader,
    changes: &[Change],
    checkpoint: Option<Key>,
) -> Result<LogObject, PageFault> {
    let mut log = LogObject::of_root(alloc, None, 0, checkpoint);
    for change in changes {
        log.append(disk, reader, change)?;
    }
    Ok(log)
}

/// The pair of an active log in which keys 5 and 7 are changed, and a flushing one from which keys up to 3
/// have left, in which 5 and 3 would have stood before the others.
fn new_pair(alloc: Global, disk: &MemDisk, reader: &mut Reader) -> Result<LogPair, PageFault> {
    let changes = [homed(7, 40), homed(5, 41), Change::Gone(key(7))];
    let active = log_of(alloc, disk, reader, &changes, None)?;
    let changes = [
        homed(8, 42),
        homed(6, 43),
        homed(5, 44),
        homed(3, 45),
        Change::Gone(key(6)),
    ];
    let flushing = log_of(alloc, disk, reader, &changes, Some(key(3)))?;
    LogPair::replay(alloc, active, flushing, disk, reader)
}

/// Sees which changes a list of the pair has, by its number, and how many its log has.
fn assert_list(rt: &impl Abort, pair: &LogPair, at: u32, wanted: &[Change], changes: u64) {
    assert!(rt; at < 2);
    assert_same(rt, "how many are listed", pair.len(at), wanted.len() as u64);
    assert_same(rt, "how many were appended", pair.changes(at), changes);
    for (index, change) in wanted.iter().enumerate() {
        assert_change(rt, pair, at, index as u64, change);
    }
}

/// Sees that a list of the pair has this change at an index, and finds it by its key.
fn assert_change(rt: &impl Abort, pair: &LogPair, at: u32, index: u64, wanted: &Change) {
    assert!(rt; at < 2);
    assert!(rt; index < pair.len(at));
    let found = *pair.change(at, index);
    assert_same_at(rt, "the change at", index, found, *wanted);
    let found = pair.get(at, &key_of(wanted)).copied();
    assert_same_at(rt, "the change of the key of", index, found, Some(*wanted));
}

/// Sees that a list of the pair has no change of this key.
fn assert_no_change(rt: &impl Abort, pair: &LogPair, at: u32, byte: u8) {
    assert!(rt; at < 2);
    let found = pair.get(at, &key(byte)).copied();
    assert_same_at(rt, "the change of key", byte as u64, found, None);
}

/// Sees that a walk over a list of the pair gives these changes, and none behind them.
fn assert_walked(rt: &impl Abort, pair: &LogPair, at: u32, wanted: &[Change]) {
    assert!(rt; at < 2);
    let mut walk = pair.walk(at);
    for change in wanted {
        assert_same(rt, "the next change", walk.next().copied(), Some(*change));
    }
    assert_same(rt, "the change behind them", walk.next().copied(), None);
}

/// Sees what is left of the two logs as they are replayed.
fn assert_replayed(rt: &impl Abort, pair: &LogPair) {
    assert_list(rt, pair, 0, &[homed(5, 41), Change::Gone(key(7))], 3);
    assert_list(rt, pair, 1, &[Change::Gone(key(6)), homed(8, 42)], 5);
    assert_walked(rt, pair, 0, &[homed(5, 41), Change::Gone(key(7))]);
    assert_walked(rt, pair, 1, &[Change::Gone(key(6)), homed(8, 42)]);
    assert_no_change(rt, pair, 0, 8);
    assert_no_change(rt, pair, 1, 3);
    assert_no_change(rt, pair, 1, 5);
    assert_same(rt, "the checkpoint", pair.checkpoint(), Some(key(3)));
}

/// Empties the flushing log, of which nothing is left.
fn empty(
    rt: &impl Abort,
    pair: &mut LogPair,
    disk: &MemDisk,
    reader: &mut Reader,
) -> Result<(), PageFault> {
    assert!(rt; pair.len(1) == 0);
    pair.empty_flushing(disk, reader)
}

/// Swaps the logs, of which the flushing one is empty.
fn swap(rt: &impl Abort, pair: &mut LogPair) {
    assert!(rt; pair.len(1) == 0);
    assert!(rt; pair.changes(1) == 0);
    pair.swap();
}

/// Takes the first change of the flushing log, and sets the other one's key in the active log.
fn use_up(
    rt: &impl Abort,
    pair: &mut LogPair,
    disk: &MemDisk,
    reader: &mut Reader,
) -> Result<(), PageFault> {
    assert_same(
        rt,
        "the first",
        pair.pop_flush(),
        Some(Change::Gone(key(6))),
    );
    assert_same(rt, "the checkpoint", pair.checkpoint(), Some(key(6)));
    pair.append(disk, reader, homed(8, 46))?;
    assert_same(rt, "the one behind the last", pair.pop_flush(), None);
    Ok(())
}

#[test]
fn the_lists_are_what_the_logs_are_replayed_to(rt: HostRuntime) -> Result<(), Fail> {
    let mut disk = MemDisk::new(rt.alloc(), 8)?;
    let mut reader = reader_of(&mut disk)?;
    let pair = new_pair(rt.alloc(), &disk, &mut reader)?;
    assert_replayed(&rt, &pair);
    pair.replays();
    Ok(())
}

#[test]
fn the_logs_swap_once_the_flushing_one_is_empty(rt: HostRuntime) -> Result<(), Fail> {
    let mut disk = MemDisk::new(rt.alloc(), 8)?;
    let mut reader = reader_of(&mut disk)?;
    let mut pair = new_pair(rt.alloc(), &disk, &mut reader)?;
    use_up(&rt, &mut pair, &disk, &mut reader)?;
    assert_list(&rt, &pair, 1, &[], 5);
    empty(&rt, &mut pair, &disk, &mut reader)?;
    assert_list(&rt, &pair, 1, &[], 0);
    assert_same(&rt, "the checkpoint", pair.checkpoint(), None);
    swap(&rt, &mut pair);
    assert_list(&rt, &pair, 0, &[], 0);
    let left = [homed(5, 41), Change::Gone(key(7)), homed(8, 46)];
    assert_list(&rt, &pair, 1, &left, 4);
    assert_same(&rt, "the checkpoint", pair.checkpoint(), None);
    Ok(())
}
