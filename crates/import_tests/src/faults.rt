use crate::comparing::{assert_same, assert_same_at};
use crate::damage::spoiled;
use crate::importing::{fault_of, fault_under, seal_in};
use crate::parts::{of_one_pointer, small_disk};
use disk_model::MemDisk;
use pool_model::SyncFault;
use std::alloc::Global;
use std::process::Abort;
use std::test::Fail;

/// The fault, where a call fails.
fn where_it_fails(fails: bool, fault: SyncFault) -> Option<SyncFault> {
    if fails { Some(fault) } else { None }
}

/// Makes a call of a disk fail, counted from the next one on.
fn fail_call(disk: &mut MemDisk, failing: u64) {
    let made = disk.calls_made();
    disk.fail_call(made.saturating_add(failing));
}

/// A disk with a sealed pool of one pointer.
fn with_a_pool(rt: &impl Abort, alloc: Global) -> Result<MemDisk, Fail> {
    let mut disk = small_disk(alloc)?;
    let seal = of_one_pointer(rt, &mut disk)?;
    seal_in(rt, &mut disk, &seal)?;
    Ok(disk)
}

/// Sees whether an import fails of which this read does.
fn assert_read(rt: &impl Abort, alloc: Global, failing: u64, fails: bool) -> Result<(), Fail> {
    let mut disk = with_a_pool(rt, alloc)?;
    disk.fail_reads(1, failing, failing);
    let told = fault_of(alloc, &mut disk);
    let wanted = where_it_fails(fails, SyncFault::ReadFault);
    assert_same_at(rt, "failing read", failing, told, wanted);
    Ok(())
}

#[test]
fn a_failed_read_is_told_as_such(rt: HostRuntime) -> Result<(), Fail> {
    // Sixteen gates, a body and two pages are read.
    for (failing, fails) in [(1, true), (16, true), (18, true), (19, true), (20, false)] {
        assert_read(&rt, rt.alloc(), failing, fails)?;
    }
    Ok(())
}

/// Sees whether an import fails of which this call does.
fn assert_call(rt: &impl Abort, alloc: Global, failing: u64, fails: bool) -> Result<(), Fail> {
    let mut disk = with_a_pool(rt, alloc)?;
    fail_call(&mut disk, failing);
    let told = fault_of(alloc, &mut disk);
    let wanted = where_it_fails(fails, SyncFault::WriteFault);
    assert_same_at(rt, "failing call", failing, told, wanted);
    Ok(())
}

#[test]
fn a_failed_call_is_told_as_such(rt: HostRuntime) -> Result<(), Fail> {
    // The meter and the barrier are the calls that can fail.
    for (failing, fails) in [(1, true), (2, true), (3, false)] {
        assert_call(&rt, rt.alloc(), failing, fails)?;
    }
    Ok(())
}

/// A disk with a pool of one pointer, under a seal of which the sums are wrong.
fn with_wrong_sums(rt: &impl Abort, alloc: Global) -> Result<MemDisk, Fail> {
    let mut disk = small_disk(alloc)?;
    let seal = of_one_pointer(rt, &mut disk)?;
    seal_in(rt, &mut disk, &spoiled(&seal, 6))?;
    Ok(disk)
}

/// Sees what is told of such a disk, of which the first read fails, or none.
fn assert_told_first(
    rt: &impl Abort,
    alloc: Global,
    reads_fail: bool,
    barrier_fails: bool,
    wanted: SyncFault,
) -> Result<(), Fail> {
    let mut disk = with_wrong_sums(rt, alloc)?;
    fail_both(&mut disk, reads_fail, barrier_fails);
    let told = fault_of(alloc, &mut disk);
    assert_same(rt, "the fault", told, Some(wanted));
    Ok(())
}

/// Makes the first read of a disk fail, and the barrier of the next import.
fn fail_both(disk: &mut MemDisk, reads_fail: bool, barrier_fails: bool) {
    if reads_fail {
        disk.fail_reads(1, 1, 1);
    }
    if barrier_fails {
        fail_call(disk, 2);
    }
}

#[test]
fn a_failing_barrier_is_told_before_what_the_image_is(rt: HostRuntime) -> Result<(), Fail> {
    // The seal's sums are wrong, and then the first read fails too.
    for (reads_fail, barrier_fails, wanted) in [
        (false, false, SyncFault::Damaged(3)),
        (false, true, SyncFault::WriteFault),
        (true, false, SyncFault::ReadFault),
        (true, true, SyncFault::WriteFault),
    ] {
        assert_told_first(&rt, rt.alloc(), reads_fail, barrier_fails, wanted)?;
    }
    Ok(())
}
