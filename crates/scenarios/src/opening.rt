use crate::comparing::assert_same;
use crate::files::{EMPTY_STAT, ONE_STAT, ONE_WRITE, SHARED_BLOCK, SHARED_STAT};
use crate::running::{
    MAKE, RUN, assert_ended, assert_opens, assert_runs, assert_tells, run_file, small_disk,
};
use ddt_entry::WeakKey;
use disk_model::{Disk, MemDisk};
use session::Status;
use std::alloc::Global;
use std::process::Abort;
use std::test::Fail;

/// Makes an empty pool on a blank disk, and tries to make it again.
fn make_once(rt: &impl Abort, alloc: Global, disk: &mut MemDisk) -> Result<(), Fail> {
    assert_opens(rt, alloc, MAKE, disk, Status::Done)?;
    assert_tells(rt, alloc, "stat", disk, Status::Done, EMPTY_STAT)?;
    assert_tells(rt, alloc, "create", disk, Status::PoolExists(1), "")?;
    assert_opens(rt, alloc, MAKE, disk, Status::PoolExists(1))?;
    assert_opens(rt, alloc, RUN, disk, Status::Done)?;
    assert_tells(rt, alloc, "stat", disk, Status::Done, EMPTY_STAT)
}

#[test]
fn an_empty_pool_is_made_once(rt: HostRuntime) -> Result<(), Fail> {
    let mut disk = small_disk(rt.alloc())?;
    make_once(&rt, rt.alloc(), &mut disk)
}

/// Creates a pool on a blank disk, and runs a file over it.
fn create_and_run(rt: &impl Abort, alloc: Global, disk: &mut MemDisk) -> Result<(), Fail> {
    assert_tells(rt, alloc, "create", disk, Status::Done, "create 1\n")?;
    assert_tells(rt, alloc, "stat", disk, Status::Done, EMPTY_STAT)?;
    assert_runs(rt, alloc, RUN, disk, ONE_WRITE.file, ONE_WRITE.report)?;
    assert_tells(rt, alloc, "stat", disk, Status::Done, ONE_STAT)?;
    assert_tells(rt, alloc, "create", disk, Status::PoolExists(2), "")?;
    assert_opens(rt, alloc, MAKE, disk, Status::PoolExists(2))
}

#[test]
fn a_created_pool_is_run_over(rt: HostRuntime) -> Result<(), Fail> {
    let mut disk = small_disk(rt.alloc())?;
    create_and_run(&rt, rt.alloc(), &mut disk)
}

/// Looks for a pool on a blank disk.
fn find_none(rt: &impl Abort, alloc: Global, disk: &mut MemDisk) -> Result<(), Fail> {
    assert_opens(rt, alloc, RUN, disk, Status::NoPool)?;
    assert_tells(rt, alloc, "stat", disk, Status::NoPool, "")
}

#[test]
fn a_blank_disk_has_no_pool(rt: HostRuntime) -> Result<(), Fail> {
    let mut disk = small_disk(rt.alloc())?;
    find_none(&rt, rt.alloc(), &mut disk)
}

/// Tries to make a pool on a disk with a sector too few.
fn make_on_too_few(rt: &impl Abort, alloc: Global, disk: &mut MemDisk) -> Result<(), Fail> {
    assert_opens(rt, alloc, MAKE, disk, Status::BadSize(2_047))?;
    assert_tells(rt, alloc, "create", disk, Status::BadSize(2_047), "")?;
    assert_same(rt, "the calls", disk.calls_made(), 0);
    assert_opens(rt, alloc, RUN, disk, Status::NoPool)
}

#[test]
fn a_disk_with_a_sector_too_few_takes_no_pool(rt: HostRuntime) -> Result<(), Fail> {
    let mut disk = MemDisk::new(rt.alloc(), 2_047)?;
    make_on_too_few(&rt, rt.alloc(), &mut disk)
}

/// Makes a pool of other keys.
fn make_other_keys(rt: &impl Abort, alloc: Global, disk: &mut MemDisk) -> Result<(), Fail> {
    let made = run_file(alloc, &WeakKey, MAKE, disk, "")?;
    assert_ended(rt, &made, Status::Done, "")
}

/// Makes a pool of other keys on a blank disk, and looks for it.
fn find_other_keys(rt: &impl Abort, alloc: Global, disk: &mut MemDisk) -> Result<(), Fail> {
    // The body of the seal of group 1, which names the key function, is sector 3.
    make_other_keys(rt, alloc, disk)?;
    assert_opens(rt, alloc, RUN, disk, Status::Damaged(3))?;
    assert_tells(rt, alloc, "stat", disk, Status::Damaged(3), "")?;
    assert_tells(rt, alloc, "create", disk, Status::PoolExists(1), "")
}

#[test]
fn a_pool_of_other_keys_is_damaged(rt: HostRuntime) -> Result<(), Fail> {
    let mut disk = small_disk(rt.alloc())?;
    find_other_keys(&rt, rt.alloc(), &mut disk)
}

/// Changes this byte of a sector.
fn change_byte(rt: &impl Abort, disk: &mut MemDisk, sector: u64, at: usize) -> Result<(), Fail> {
    assert!(rt; sector < disk.sectors());
    assert!(rt; at < 4096);
    let mut bytes = [0; 4096];
    let mut meter = disk.meter()?;
    let answer = disk.read(&mut meter, sector, &mut bytes);
    disk.retire(meter);
    answer?;
    bytes[at] ^= 1;
    disk.write(sector, &bytes)?;
    Ok(())
}

/// Makes a pool of group 2 on a blank disk, and changes this byte of this sector.
fn share_and_change(
    rt: &impl Abort,
    alloc: Global,
    disk: &mut MemDisk,
    sector: u64,
    at: usize,
) -> Result<(), Fail> {
    let (file, report) = (SHARED_BLOCK.file, SHARED_BLOCK.report);
    assert_runs(rt, alloc, MAKE, disk, file, report)?;
    change_byte(rt, disk, sector, at)
}

/// Sees what is told of a pool of group 2, of which this byte of this sector was changed.
fn assert_changed(
    rt: &impl Abort,
    alloc: Global,
    sector: u64,
    at: usize,
    stat: &str,
) -> Result<(), Fail> {
    let mut disk = small_disk(alloc)?;
    share_and_change(rt, alloc, &mut disk, sector, at)?;
    assert_tells(rt, alloc, "stat", &mut disk, Status::Done, stat)
}

#[test]
fn behind_a_changed_seal_the_one_before_counts(rt: HostRuntime) -> Result<(), Fail> {
    // The gate of group 2 is sector 4, of which the first 8 bytes count; the body of its seal is sector 5. Group 1 has
    // sectors 2 and 3.
    for (sector, at, stat) in [
        (5u64, 0usize, EMPTY_STAT),
        (5, 4_095, EMPTY_STAT),
        (4, 0, EMPTY_STAT),
        (4, 7, EMPTY_STAT),
        (4, 8, SHARED_STAT),
        (3, 0, SHARED_STAT),
        (2, 0, SHARED_STAT),
    ] {
        assert_changed(&rt, rt.alloc(), sector, at, stat)?;
    }
    Ok(())
}
