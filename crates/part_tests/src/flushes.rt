//! A log of eighty changes that comes to the stored table in two pieces, beside flushes that find nothing to do.

use crate::comparing::{assert_same, assert_same_at};
use crate::parts::{Reader, entry, home, home_in, key, reader_of};
use ddt_class::Classes;
use ddt_entry::{Change, Key};
use disk_model::MemDisk;
use log_flush::flush;
use log_object::LogObject;
use log_pair::LogPair;
use page_tree::PageFault;
use std::alloc::Global;
use std::process::Abort;
use std::test::Fail;

/// The homes of the table before: the byte of the key, the place and the count.
const STORED: [(u8, u64, u64); 4] = [(10, 50, 2), (20, 120, 1), (40, 51, 5), (90, 52, 1)];

/// The change of the key of this byte. Key 10 goes, keys 20, 78 and 79 wait, two pointers share key 30, and each
/// other key has one. Its place is the byte and a hundred.
fn change_of(byte: u8) -> Change {
    let place = byte as u64 + 100;
    match byte {
        10 => Change::Gone(key(byte)),
        20 | 78 | 79 => Change::Entry(entry(byte, place, 0)),
        30 => Change::Entry(entry(byte, place, 2)),
        _ => Change::Entry(entry(byte, place, 1)),
    }
}

/// Puts the homes of the table before.
fn put_stored(
    rt: &impl Abort,
    table: &mut Classes,
    disk: &MemDisk,
    reader: &mut Reader,
) -> Result<(), PageFault> {
    for (byte, place, count) in STORED {
        let home = home(place, count);
        assert!(rt; home.count > 0);
        table.put(disk, reader, &key(byte), home)?;
    }
    Ok(())
}

/// A flushing log of the changes of keys 80 to 1, in this order, beside an active one in which key 79 is used again.
fn eighty(alloc: Global, disk: &MemDisk, reader: &mut Reader) -> Result<LogPair, PageFault> {
    let mut active = LogObject::of_root(alloc, None, 0, None);
    active.append(disk, reader, &Change::Entry(entry(79, 179, 1)))?;
    let mut flushing = LogObject::of_root(alloc, None, 0, None);
    for below in 0..80u8 {
        flushing.append(disk, reader, &change_of(80 - below))?;
    }
    LogPair::replay(alloc, active, flushing, disk, reader)
}

/// What a flush is to leave.
#[derive(Clone, Copy)]
struct Left {
    /// How many records it takes at the most.
    limit: u64,
    /// The place that it releases, if any.
    place: Option<u64>,
    /// How many records are left to flush.
    records: u64,
    /// How many changes the flushing log has.
    changes: u64,
    /// The byte of the checkpoint's key.
    checkpoint: Option<u8>,
    /// How many homes the table has, of one pointer and of more, and how many pointers they count.
    homes: (u64, u64, u64),
}

/// The flushes one after another.
const FLUSHES: [Left; 4] = [
    Left {
        limit: 0,
        place: None,
        records: 79,
        changes: 80,
        checkpoint: None,
        homes: (2, 2, 9),
    },
    Left {
        limit: 74,
        place: Some(120),
        records: 5,
        changes: 80,
        checkpoint: Some(74),
        homes: (72, 1, 74),
    },
    Left {
        limit: 74,
        place: Some(178),
        records: 0,
        changes: 0,
        checkpoint: None,
        homes: (76, 1, 78),
    },
    Left {
        limit: 1,
        place: None,
        records: 0,
        changes: 0,
        checkpoint: None,
        homes: (76, 1, 78),
    },
];

/// The key of a byte, where there is one.
fn key_at(byte: Option<u8>) -> Option<Key> {
    match byte {
        None => None,
        Some(byte) => Some(key(byte)),
    }
}

/// Sees how many homes each class has, and how many pointers they count.
fn assert_homes(rt: &impl Abort, table: &Classes, limit: u64, homes: (u64, u64, u64)) {
    let (unique, duplicate, counts) = homes;
    assert_same_at(rt, "the unique ones, limit", limit, table.size(0), unique);
    assert_same_at(
        rt,
        "the duplicate ones, limit",
        limit,
        table.size(1),
        duplicate,
    );
    assert_same_at(rt, "the pointers, limit", limit, table.counts(), counts);
}

/// Sees what is left of the logs.
fn assert_logs(rt: &impl Abort, pair: &LogPair, left: &Left) {
    assert_same(rt, "the records that are left", pair.len(1), left.records);
    assert_same(rt, "the changes", pair.changes(1), left.changes);
    assert_same(
        rt,
        "the checkpoint",
        pair.checkpoint(),
        key_at(left.checkpoint),
    );
}

/// Flushes so many records, and sees which place is released.
fn flush_some(
    rt: &impl Abort,
    alloc: Global,
    table: &mut Classes,
    pair: &mut LogPair,
    disk: &MemDisk,
    reader: &mut Reader,
    left: &Left,
) -> Result<(), PageFault> {
    let places = flush(alloc, table, pair, disk, reader, left.limit)?;
    assert_same(rt, "the first place", places.get(0).copied(), left.place);
    assert_same(rt, "the second place", places.get(1).copied(), None);
    Ok(())
}

/// The homes after all flushes, by the byte of the key.
const FOUND: [(u8, Option<(u64, u64)>); 10] = [
    (1, Some((101, 1))),
    (10, None),
    (20, None),
    (30, Some((130, 2))),
    (40, Some((140, 1))),
    (75, Some((175, 1))),
    (78, None),
    (79, None),
    (80, Some((180, 1))),
    (90, Some((52, 1))),
];

/// Sees which home each key has.
fn assert_found(rt: &impl Abort, table: &Classes, disk: &MemDisk, reader: &mut Reader) {
    for (byte, row) in FOUND {
        let found = table.find(disk, reader, &key(byte));
        assert_same_at(rt, "the home of key", byte as u64, found, Ok(home_in(row)));
    }
}

/// Flushes by each row, and sees what is left.
fn flush_all(
    rt: &impl Abort,
    alloc: Global,
    table: &mut Classes,
    pair: &mut LogPair,
    disk: &MemDisk,
    reader: &mut Reader,
) -> Result<(), PageFault> {
    for left in FLUSHES {
        flush_some(rt, alloc, table, pair, disk, reader, &left)?;
        assert_logs(rt, pair, &left);
        assert_homes(rt, table, left.limit, left.homes);
    }
    Ok(())
}

#[test]
fn a_log_comes_to_the_table_in_pieces(rt: HostRuntime) -> Result<(), Fail> {
    let mut disk = MemDisk::new(rt.alloc(), 8)?;
    let mut reader = reader_of(&mut disk)?;
    let mut table = Classes::new(rt.alloc());
    put_stored(&rt, &mut table, &disk, &mut reader)?;
    let mut pair = eighty(rt.alloc(), &disk, &mut reader)?;
    flush_all(&rt, rt.alloc(), &mut table, &mut pair, &disk, &mut reader)?;
    assert_found(&rt, &table, &disk, &mut reader);
    Ok(())
}
