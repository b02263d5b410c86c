//! Homes that are put into the two classes, moved from one to the other, looked up, listed and taken out.

use crate::comparing::{assert_same, assert_same_at};
use crate::parts::{Reader, entry, home, home_in, key, reader_of};
use ddt_class::Classes;
use ddt_entry::Entry;
use disk_model::MemDisk;
use page_tree::PageFault;
use std::alloc::Global;
use std::process::Abort;
use std::test::Fail;

/// The byte of a key, and its home's place and count, as they are put one after another.
const PUT: [(u8, u64, u64); 6] = [
    (7, 40, 1),
    (3, 41, 2),
    (5, 42, 1),
    (7, 44, 3),
    (3, 41, 1),
    (9, 43, 2),
];

/// Which homes are found then, by the byte of the key.
const FOUND: [(u8, Option<(u64, u64)>); 6] = [
    (2, None),
    (3, Some((41, 1))),
    (4, None),
    (5, Some((42, 1))),
    (7, Some((44, 3))),
    (9, Some((43, 2))),
];

/// Puts a home that is counted.
fn put_home(
    rt: &impl Abort,
    table: &mut Classes,
    disk: &MemDisk,
    reader: &mut Reader,
    row: (u8, u64, u64),
) -> Result<(), PageFault> {
    let (byte, place, count) = row;
    let home = home(place, count);
    assert!(rt; home.count > 0);
    table.put(disk, reader, &key(byte), home)
}

/// Puts the homes of all rows.
fn put_all(
    rt: &impl Abort,
    table: &mut Classes,
    disk: &MemDisk,
    reader: &mut Reader,
) -> Result<(), PageFault> {
    for row in PUT {
        put_home(rt, table, disk, reader, row)?;
    }
    Ok(())
}

/// Sees which home each key has.
fn assert_found(rt: &impl Abort, table: &Classes, disk: &MemDisk, reader: &mut Reader) {
    for (byte, row) in FOUND {
        let found = table.find(disk, reader, &key(byte));
        assert_same_at(rt, "the home of key", byte as u64, found, Ok(home_in(row)));
    }
}

/// Sees which entries are listed.
fn assert_entries(
    rt: &impl Abort,
    alloc: Global,
    table: &Classes,
    disk: &MemDisk,
    reader: &mut Reader,
    wanted: &[Entry],
) -> Result<(), PageFault> {
    table.is_table();
    let listed = table.entries(alloc, disk, reader)?;
    assert_same(rt, "the entries", listed.as_slice(), wanted);
    Ok(())
}

/// Sees how many entries each class has, and how many pointers are counted.
fn assert_numbers(rt: &impl Abort, table: &Classes, unique: u64, duplicate: u64, counts: u64) {
    assert_same(rt, "the unique ones", table.size(0), unique);
    assert_same(rt, "the duplicate ones", table.size(1), duplicate);
    assert_same(
        rt,
        "the entries",
        table.len(),
        unique.saturating_add(duplicate),
    );
    assert_same(rt, "the pointers", table.counts(), counts);
    assert_same(rt, "the bits of the unique class", table.bits(0), 0);
    assert_same(rt, "the bits of the duplicate class", table.bits(1), 0);
}

#[test]
fn a_home_stands_in_the_class_of_its_count(rt: HostRuntime) -> Result<(), Fail> {
    let mut disk = MemDisk::new(rt.alloc(), 8)?;
    let mut reader = reader_of(&mut disk)?;
    let mut table = Classes::new(rt.alloc());
    assert_numbers(&rt, &table, 0, 0, 0);
    put_all(&rt, &mut table, &disk, &mut reader)?;
    assert_numbers(&rt, &table, 2, 2, 7);
    assert_found(&rt, &table, &disk, &mut reader);
    let wanted = [
        entry(3, 41, 1),
        entry(5, 42, 1),
        entry(7, 44, 3),
        entry(9, 43, 2),
    ];
    assert_entries(&rt, rt.alloc(), &table, &disk, &mut reader, &wanted)?;
    Ok(())
}

/// Which key is taken out, the home that it had, and how many entries each class has then.
const TAKEN: [(u8, Option<(u64, u64)>, u64, u64, u64); 4] = [
    (5, Some((42, 1)), 1, 2, 6),
    (5, None, 1, 2, 6),
    (9, Some((43, 2)), 1, 1, 4),
    (4, None, 1, 1, 4),
];

/// Takes keys out of the table, and sees what is left after each.
fn assert_taken(rt: &impl Abort, table: &mut Classes, disk: &MemDisk, reader: &mut Reader) {
    for (byte, row, unique, duplicate, counts) in TAKEN {
        let taken = table.take_out(disk, reader, &key(byte));
        assert_same_at(rt, "the home of key", byte as u64, taken, Ok(home_in(row)));
        assert_numbers(rt, table, unique, duplicate, counts);
    }
}

#[test]
fn a_key_that_is_taken_out_is_in_no_class(rt: HostRuntime) -> Result<(), Fail> {
    let mut disk = MemDisk::new(rt.alloc(), 8)?;
    let mut reader = reader_of(&mut disk)?;
    let mut table = Classes::new(rt.alloc());
    put_all(&rt, &mut table, &disk, &mut reader)?;
    assert_taken(&rt, &mut table, &disk, &mut reader);
    let wanted = [entry(3, 41, 1), entry(7, 44, 3)];
    assert_entries(&rt, rt.alloc(), &table, &disk, &mut reader, &wanted)?;
    Ok(())
}

/// The byte of a key whose home counts as many pointers as there can be.
const MANY: (u8, u64, u64) = (8, 45, u64::MAX);

#[test]
fn a_sum_of_counts_stops_at_its_largest_number(rt: HostRuntime) -> Result<(), Fail> {
    let mut disk = MemDisk::new(rt.alloc(), 8)?;
    let mut reader = reader_of(&mut disk)?;
    let mut table = Classes::new(rt.alloc());
    put_home(&rt, &mut table, &disk, &mut reader, MANY)?;
    assert_numbers(&rt, &table, 0, 1, u64::MAX);
    put_home(&rt, &mut table, &disk, &mut reader, (7, 40, 1))?;
    assert_numbers(&rt, &table, 1, 1, u64::MAX);
    table.take_out(&disk, &mut reader, &key(8))?;
    assert_numbers(&rt, &table, 1, 0, 1);
    Ok(())
}
