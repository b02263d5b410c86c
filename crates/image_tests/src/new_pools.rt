use crate::comparing::{assert_same, assert_same_at};
use disk_model::{Disk, Failed, MemDisk};
use std::alloc::{AllocError, Global};
use std::process::Abort;
use std::test::Fail;
use table_state::new_seal;
use txg_sync::{SealFault, seal_new_pool};
use uber_ring::{Seal, close_slot, find, open_slot, write_body};

/// A blank disk of the fewest sectors that a pool may have.
fn blank(alloc: Global) -> Result<MemDisk, AllocError> {
    MemDisk::new(alloc, 2048)
}

/// The seal that counts.
fn newest<D: Disk>(disk: &mut D) -> Result<Option<Seal>, Failed> {
    let mut meter = disk.meter()?;
    let found = find(disk, &mut meter, 0);
    disk.retire(meter);
    found
}

/// The group of the seal that counts, and 0 where there is none.
fn newest_group(disk: &mut MemDisk) -> Result<u64, Failed> {
    Ok(newest(disk)?.map_or(0, |seal| seal.group))
}

/// Seals a new pool, where the disk has the size of one and no seal counts.
fn begin(rt: &impl Abort, disk: &mut MemDisk) -> Result<(), SealFault> {
    assert!(rt; disk.sectors() >= 2048);
    assert!(rt; disk.sectors() <= 1_000_000);
    let Ok(mut meter) = disk.meter() else {
        return Err(SealFault::WriteFault);
    };
    let Ok(found) = find(disk, &mut meter, 0) else {
        return Err(SealFault::ReadFault);
    };
    assert!(rt; found.is_none());
    seal_new_pool(disk, 1)
}

#[test]
fn a_new_pool_is_sealed_as_group_1(rt: HostRuntime) -> Result<(), Fail> {
    let mut disk = blank(rt.alloc())?;
    let answer = begin(&rt, &mut disk);
    assert_same(&rt, "the sealing", answer, Ok(()));
    let found = newest(&mut disk)?;
    assert_same(&rt, "the seal", found, Some(new_seal(1, 2048)));
    Ok(())
}

/// The disk that a crash by this choice leaves.
fn crashed(rt: &impl Abort, disk: MemDisk, choice: u8) -> Result<MemDisk, Fail> {
    assert!(rt; choice <= 3);
    match disk.crash(choice) {
        Ok(left) => Ok(left),
        Err(_) => Err("no memory for the crash".into()),
    }
}

/// Seals a new pool on a disk where every call fails from this one on, the search for a pool not counted, and sees
/// whether that is done.
fn begin_cut_short(rt: &impl Abort, disk: &mut MemDisk, failing: u64, is_done: bool) {
    let searched = disk.calls_made().saturating_add(1);
    disk.fail_from(searched.saturating_add(failing));
    let answer = begin(rt, disk).is_ok();
    assert_same_at(rt, "calls fail from", failing, answer, is_done);
}

/// Sees which group a crash by this choice leaves.
fn assert_leaves(rt: &impl Abort, disk: MemDisk, choice: u8, group: u64) -> Result<(), Fail> {
    let mut left = crashed(rt, disk, choice)?;
    let found = newest_group(&mut left)?;
    assert_same_at(rt, "what is left by choice", choice as u64, found, group);
    Ok(())
}

/// Which group each choice of a crash leaves, where every call from one on fails. The calls: the meter, the closing's
/// barrier, the body, its barrier, the gate, its barrier.
const LEFT: [(u64, [u64; 4]); 7] = [
    (1, [0, 0, 0, 0]),
    (2, [0, 0, 0, 0]),
    (3, [0, 0, 0, 0]),
    (4, [0, 0, 0, 0]),
    (5, [0, 0, 0, 0]),
    (6, [0, 1, 0, 0]),
    (7, [1, 1, 1, 1]),
];

/// Sees what a crash leaves of a sealing on a blank disk, where every call from this one on fails.
fn crash_blank(
    rt: &impl Abort,
    alloc: Global,
    failing: u64,
    choice: u8,
    group: u64,
) -> Result<(), Fail> {
    let mut disk = blank(alloc)?;
    begin_cut_short(rt, &mut disk, failing, failing == 7);
    assert_leaves(rt, disk, choice, group)
}

/// Does so with each choice.
fn crash_each(rt: &impl Abort, alloc: Global, failing: u64, groups: [u64; 4]) -> Result<(), Fail> {
    let [first, second, third, fourth] = groups;
    crash_blank(rt, alloc, failing, 0, first)?;
    crash_blank(rt, alloc, failing, 1, second)?;
    crash_blank(rt, alloc, failing, 2, third)?;
    crash_blank(rt, alloc, failing, 3, fourth)
}

#[test]
fn a_crash_after_each_call_leaves_no_seal_or_the_new_one(rt: HostRuntime) -> Result<(), Fail> {
    for (failing, groups) in LEFT {
        crash_each(&rt, rt.alloc(), failing, groups)?;
    }
    Ok(())
}

/// Opens the gate of slot 1, before a body that spells no seal.
fn open_before_nothing(rt: &impl Abort, disk: &mut MemDisk) -> Result<(), Failed> {
    assert!(rt; disk.sectors() >= 32);
    open_slot(disk, 1)
}

/// Leaves the body of a new pool's seal behind the closed gate of slot 1.
fn leave_a_body(rt: &impl Abort, disk: &mut MemDisk) -> Result<(), Failed> {
    assert!(rt; disk.sectors() >= 32);
    write_body(disk, &new_seal(1, 2048))?;
    close_slot(disk, 1, false)
}

/// The calls that fail, the choice of the crash, and the group that is left, where the gate was open. It is one call
/// more than else, the write that closes the gate: the body is the fourth call, the gate the sixth.
const LEFT_OF_OPEN: [(u64, u8, u64); 7] = [
    (4, 1, 0),
    (5, 0, 0),
    (5, 1, 0),
    (6, 1, 0),
    (7, 0, 0),
    (7, 1, 1),
    (8, 0, 1),
];

/// Sees what a crash leaves of a sealing where the gate was open.
fn crash_open(
    rt: &impl Abort,
    alloc: Global,
    failing: u64,
    choice: u8,
    group: u64,
) -> Result<(), Fail> {
    let mut disk = blank(alloc)?;
    open_before_nothing(rt, &mut disk)?;
    begin_cut_short(rt, &mut disk, failing, failing == 8);
    assert_leaves(rt, disk, choice, group)
}

#[test]
fn an_open_gate_is_closed_first(rt: HostRuntime) -> Result<(), Fail> {
    for (failing, choice, group) in LEFT_OF_OPEN {
        crash_open(&rt, rt.alloc(), failing, choice, group)?;
    }
    Ok(())
}

/// The same where a body was left.
const LEFT_OF_BODY: [(u64, u8, u64); 7] = [
    (1, 2, 0),
    (2, 1, 0),
    (3, 2, 0),
    (4, 0, 0),
    (5, 1, 0),
    (6, 1, 1),
    (7, 2, 1),
];

/// Sees what a crash leaves of a sealing where a body was left.
fn crash_left(
    rt: &impl Abort,
    alloc: Global,
    failing: u64,
    choice: u8,
    group: u64,
) -> Result<(), Fail> {
    let mut disk = blank(alloc)?;
    leave_a_body(rt, &mut disk)?;
    begin_cut_short(rt, &mut disk, failing, failing == 7);
    assert_leaves(rt, disk, choice, group)
}

#[test]
fn a_body_that_was_left_does_not_count_early(rt: HostRuntime) -> Result<(), Fail> {
    for (failing, choice, group) in LEFT_OF_BODY {
        crash_left(&rt, rt.alloc(), failing, choice, group)?;
    }
    Ok(())
}

#[test]
fn a_read_that_fails_is_told_as_such(rt: HostRuntime) -> Result<(), Fail> {
    // The search has the first meter, the sealing the second, whose one read is that of the gate.
    let mut disk = blank(rt.alloc())?;
    disk.fail_reads(2, 1, 1);
    let answer = begin(&rt, &mut disk);
    assert_same(&rt, "the fault", answer, Err(SealFault::ReadFault));
    assert_same(&rt, "the group", newest_group(&mut disk)?, 0);
    Ok(())
}

/// How a sealing ends of which this call fails.
const FAULTS: [(u64, SealFault); 6] = [
    (1, SealFault::WriteFault),
    (2, SealFault::WriteFault),
    (3, SealFault::WriteFault),
    (4, SealFault::WriteFault),
    (5, SealFault::GateFault),
    (6, SealFault::GateFault),
];

/// Sees that a sealing ends so where this call fails.
fn assert_fails(
    rt: &impl Abort,
    alloc: Global,
    failing: u64,
    fault: SealFault,
) -> Result<(), Fail> {
    let mut disk = blank(alloc)?;
    let searched = disk.calls_made().saturating_add(1);
    disk.fail_call(searched.saturating_add(failing));
    let answer = begin(rt, &mut disk);
    assert_same_at(rt, "failing call", failing, answer, Err(fault));
    Ok(())
}

#[test]
fn a_fault_of_a_call_is_told_as_what_it_was(rt: HostRuntime) -> Result<(), Fail> {
    for (failing, fault) in FAULTS {
        assert_fails(&rt, rt.alloc(), failing, fault)?;
    }
    Ok(())
}
