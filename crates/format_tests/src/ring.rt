use crate::bodies::{close, open, put, reads_open, write_one, written_body};
use crate::comparing::{assert_same, assert_same_at};
use disk_model::{Disk, Failed, MemDisk};
use std::alloc::Global;
use std::process::Abort;
use std::test::Fail;
use table_state::new_seal;
use uber_ring::{Seal, find};

/// A seal of this group, whose other fields don't matter.
fn seal_of_group(group: u64) -> Seal {
    let mut seal = new_seal(1, 2048);
    seal.group = group;
    seal
}

/// Seals a group: body, barrier, gate, barrier.
fn seal<D: Disk>(rt: &impl Abort, disk: &mut D, group: u64) -> Result<(), Failed> {
    write_one(rt, disk, &seal_of_group(group))?;
    disk.barrier()?;
    open(rt, disk, (group % 16) as u32)
}

/// The group of the seal of this version that counts, and 0 where there is none.
fn newest_of<D: Disk>(disk: &mut D, version: u32) -> Result<u64, Failed> {
    let mut meter = disk.meter()?;
    let found = find(disk, &mut meter, version);
    disk.retire(meter);
    Ok(found?.map_or(0, |seal| seal.group))
}

/// Sees which group counts at version 0.
fn assert_newest<D: Disk>(
    rt: &impl Abort,
    disk: &mut D,
    what: &str,
    group: u64,
) -> Result<(), Failed> {
    let found = newest_of(disk, 0)?;
    assert_same(rt, what, found, group);
    Ok(())
}

/// Groups in the order in which they are sealed, none where it is 0, and the one that counts then.
const SEALED: [(&str, [u64; 3], u64); 6] = [
    ("of no group", [0, 0, 0], 0),
    ("of group 1", [1, 0, 0], 1),
    ("of groups 1, 2 and 3", [1, 2, 3], 3),
    ("of groups 17 and 2", [17, 2, 0], 17),
    ("of groups 5, 21 and 16", [5, 21, 16], 21),
    ("of groups 31, 16 and 14", [31, 16, 14], 31),
];

/// Seals these groups.
fn seal_all(rt: &impl Abort, disk: &mut MemDisk, groups: [u64; 3]) -> Result<(), Failed> {
    for group in groups {
        if group > 0 {
            seal(rt, disk, group)?;
        }
    }
    Ok(())
}

/// Sees which group counts where these were sealed.
fn assert_counts(
    rt: &impl Abort,
    alloc: Global,
    what: &str,
    groups: [u64; 3],
    newest: u64,
) -> Result<(), Fail> {
    let mut disk = MemDisk::new(alloc, 2048)?;
    seal_all(rt, &mut disk, groups)?;
    assert_newest(rt, &mut disk, what, newest)?;
    Ok(())
}

#[test]
fn the_valid_seal_of_the_highest_group_counts(rt: HostRuntime) -> Result<(), Fail> {
    for (what, groups, newest) in SEALED {
        assert_counts(&rt, rt.alloc(), what, groups, newest)?;
    }
    Ok(())
}

#[test]
fn a_seal_for_more_sectors_than_there_are_does_not_count(rt: HostRuntime) -> Result<(), Fail> {
    let mut small = MemDisk::new(rt.alloc(), 2047)?;
    seal(&rt, &mut small, 1)?;
    assert_newest(&rt, &mut small, "of too few sectors", 0)?;
    Ok(())
}

/// Puts a body into a slot behind a gate that it opens.
fn put_open(
    rt: &impl Abort,
    disk: &mut MemDisk,
    slot: u32,
    body: &[u8; 4096],
) -> Result<(), Failed> {
    put(rt, disk, slot as u64 * 2 + 1, body)?;
    open(rt, disk, slot)
}

/// Puts the body of group 5 into the slot of group 4, and then into its own, behind a gate that is opened last.
fn put_twice(rt: &impl Abort, disk: &mut MemDisk, five: &[u8; 4096]) -> Result<(), Failed> {
    seal(rt, disk, 1)?;
    put_open(rt, disk, 4, five)?;
    assert_newest(rt, disk, "beside another slot's group", 1)?;
    put(rt, disk, 11, five)?;
    assert_newest(rt, disk, "beside a closed gate", 1)?;
    open(rt, disk, 5)?;
    assert_newest(rt, disk, "of a group in its own slot and in another", 5)
}

#[test]
fn a_body_counts_in_its_own_slot_behind_an_open_gate(rt: HostRuntime) -> Result<(), Fail> {
    let five = written_body(&rt, rt.alloc(), &seal_of_group(5))?;
    let mut disk = MemDisk::new(rt.alloc(), 2048)?;
    put_twice(&rt, &mut disk, &five)?;
    Ok(())
}

/// Puts the body of group 6 with a byte changed behind an open gate, beside the seal of group 5.
fn put_changed(rt: &impl Abort, disk: &mut MemDisk, six: [u8; 4096]) -> Result<(), Failed> {
    let mut wrong = six;
    wrong[400] = 1;
    seal(rt, disk, 5)?;
    put_open(rt, disk, 6, &wrong)?;
    assert_newest(rt, disk, "beside a wrong digest", 5)
}

#[test]
fn a_body_with_another_digest_does_not_count(rt: HostRuntime) -> Result<(), Fail> {
    let six = written_body(&rt, rt.alloc(), &seal_of_group(6))?;
    let mut disk = MemDisk::new(rt.alloc(), 2048)?;
    put_changed(&rt, &mut disk, six)?;
    Ok(())
}

/// The body of group 7, in version 1.
fn later_body(rt: &impl Abort, alloc: Global) -> Result<[u8; 4096], Fail> {
    let mut later = seal_of_group(7);
    later.version = 1;
    written_body(rt, alloc, &later)
}

/// Puts this body behind an open gate, beside the seal of group 5.
fn put_later(rt: &impl Abort, disk: &mut MemDisk, later: &[u8; 4096]) -> Result<(), Failed> {
    seal(rt, disk, 5)?;
    put_open(rt, disk, 7, later)?;
    assert_newest(rt, disk, "beside another version", 5)?;
    let asked = newest_of(disk, 1)?;
    assert_same(rt, "of the version that is asked for", asked, 7);
    Ok(())
}

#[test]
fn a_body_of_another_version_does_not_count(rt: HostRuntime) -> Result<(), Fail> {
    let later = later_body(&rt, rt.alloc())?;
    let mut disk = MemDisk::new(rt.alloc(), 2048)?;
    put_later(&rt, &mut disk, &later)?;
    Ok(())
}

/// How many calls of a disk were made.
fn calls_of(disk: &MemDisk) -> u64 {
    disk.calls_made()
}

/// Closes slot 2, and sees how many calls that takes.
fn assert_closes(
    rt: &impl Abort,
    disk: &mut MemDisk,
    was_open: bool,
    calls: u64,
) -> Result<(), Failed> {
    let made = calls_of(disk);
    close(rt, disk, 2, was_open)?;
    let then = calls_of(disk);
    assert_same(rt, "the calls", then.saturating_sub(made), calls);
    Ok(())
}

/// Closes slot 2, which is open, and closes it again.
fn close_twice(rt: &impl Abort, disk: &mut MemDisk) -> Result<(), Failed> {
    let opened = reads_open(rt, disk, 2)?;
    assert_same(rt, "whether it is open", opened, true);
    assert_closes(rt, disk, true, 2)?;
    let closed = reads_open(rt, disk, 2)?;
    assert_same(rt, "whether it is open then", closed, false);
    assert_newest(rt, disk, "of the other slot", 1)?;
    assert_closes(rt, disk, false, 1)
}

#[test]
fn a_slot_is_closed_only_where_it_was_open(rt: HostRuntime) -> Result<(), Fail> {
    let mut disk = MemDisk::new(rt.alloc(), 2048)?;
    seal_all(&rt, &mut disk, [1, 2, 0])?;
    close_twice(&rt, &mut disk)?;
    Ok(())
}

/// Sees that no seal is found where this read fails, of the meter with the same number.
fn assert_unread(rt: &impl Abort, disk: &mut MemDisk, read: u64) {
    disk.fail_reads(read, read, read);
    let fails = newest_of(disk, 0).is_err();
    assert_same_at(rt, "whether it fails at read", read, fails, true);
}

/// Fails each read of the search for the seal of group 3, one after the other.
fn fail_each_read(rt: &impl Abort, disk: &mut MemDisk) -> Result<(), Failed> {
    seal(rt, disk, 3)?;
    for read in 1..18u64 {
        assert_unread(rt, disk, read);
    }
    assert_newest(rt, disk, "where no read fails", 3)
}

#[test]
fn a_failed_read_is_told(rt: HostRuntime) -> Result<(), Fail> {
    let mut disk = MemDisk::new(rt.alloc(), 2048)?;
    fail_each_read(&rt, &mut disk)?;
    Ok(())
}
