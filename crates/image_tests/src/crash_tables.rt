use crate::comparing::assert_same_at;
use crate::crashes::{crashed, homes, slots, with_a_pointer};
use crate::groups::{assert_holds, entry, group_of, slot};
use crate::silent_disk::SilentDisk;
use crate::sound_pool::{SoundPool, imported};
use crate::syncs::{slots_for, two_hundred};
use ddt_entry::Entry;
use slot_table::SlotRecord;
use std::alloc::Global;
use std::process::Abort;
use std::test::Fail;

/// A disk with a pool of one pointer, behind the sync of a group of these slots and entries, of which every call
/// from this one on fails. A sync that nothing disturbs makes so many calls.
fn cut_short(
    rt: &impl Abort,
    alloc: Global,
    put: &[SlotRecord],
    made: &[Entry],
    calls: u64,
    failing: u64,
) -> Result<SilentDisk, Fail> {
    let (mut disk, pool) = with_a_pointer(rt, alloc)?;
    let closed = group_of(alloc, put, made)?;
    let before = disk.inner.calls_made();
    disk.inner.fail_from(before.saturating_add(failing));
    let is_done = pool.synced(rt, alloc, &mut disk, &closed).is_ok();
    assert_same_at(rt, "failing call", failing, is_done, failing > calls);
    Ok(disk)
}

/// Sees that a pool is the one before the group.
fn assert_is_before(rt: &impl Abort, alloc: Global, found: &SoundPool) -> Result<(), Fail> {
    let [home, _, _] = homes();
    let [held, _, _] = slots();
    assert_holds(rt, alloc, found, 2, &[held], &[home])
}

/// Sees that a pool is the one after the group of these slots and entries.
fn assert_is_after(
    rt: &impl Abort,
    alloc: Global,
    found: &SoundPool,
    put: &[SlotRecord],
    made: &[Entry],
) -> Result<(), Fail> {
    let [home, _, _] = homes();
    let [held, _, _] = slots();
    let mut all_slots = Vec::new(alloc);
    all_slots.push(held)?;
    all_slots.extend_from_slice(put)?;
    let mut all_homes = Vec::new(alloc);
    all_homes.push(home)?;
    all_homes.extend_from_slice(made)?;
    let (put, made) = (all_slots.as_slice(), all_homes.as_slice());
    assert_holds(rt, alloc, found, 3, put, made)
}

/// Whether the group is there after a crash by this choice, where every call from this one on fails: the last call is
/// the gate's barrier, and only then has the choice a say that has all that was written.
fn is_there(calls: u64, failing: u64, choice: u8) -> bool {
    failing > calls || (failing == calls && choice == 1)
}

/// Sees what a crash by this choice leaves of a group of these slots and entries.
fn assert_leaves(
    rt: &impl Abort,
    alloc: Global,
    put: &[SlotRecord],
    made: &[Entry],
    calls: u64,
    failing: u64,
    choice: u8,
) -> Result<(), Fail> {
    let disk = cut_short(rt, alloc, put, made, calls, failing)?;
    let mut left = crashed(rt, disk, choice)?;
    let found = imported(rt, alloc, &mut left)?;
    if is_there(calls, failing, choice) {
        assert_is_after(rt, alloc, &found, put, made)
    } else {
        assert_is_before(rt, alloc, &found)
    }
}

/// Crashes the sync of a group with each choice, where every call from this one on fails.
fn crash_from(
    rt: &impl Abort,
    alloc: Global,
    put: &[SlotRecord],
    made: &[Entry],
    calls: u64,
    failing: u64,
) -> Result<(), Fail> {
    for choice in [0u8, 1, 2, 3] {
        assert_leaves(rt, alloc, put, made, calls, failing, choice)?;
    }
    Ok(())
}

/// Does so from each of these calls on, the first to the last.
fn crash_between(
    rt: &impl Abort,
    alloc: Global,
    put: &[SlotRecord],
    made: &[Entry],
    calls: u64,
    first: u64,
    last: u64,
) -> Result<(), Fail> {
    for failing in first..last.saturating_add(1) {
        crash_from(rt, alloc, put, made, calls, failing)?;
    }
    Ok(())
}

/// Does so from each call on, and once with no call that fails.
fn crash_at_each_call(
    rt: &impl Abort,
    alloc: Global,
    put: &[SlotRecord],
    made: &[Entry],
    calls: u64,
) -> Result<(), Fail> {
    crash_between(rt, alloc, put, made, calls, 1, calls.saturating_add(1))
}

/// Does so for a group of 200 pointers. Of its 214 calls the first is the meter, the second the closing's barrier, the
/// third to the 202nd write blocks, and the next eight write pages: 201 slots and 201 changes, 56 a page. Then come
/// the body, its barrier, the gate and its barrier.
fn crash_200_between(rt: &impl Abort, alloc: Global, first: u64, last: u64) -> Result<(), Fail> {
    let homes = two_hundred(alloc, 3)?;
    let slots = slots_for(alloc, homes.as_slice())?;
    crash_between(
        rt,
        alloc,
        slots.as_slice(),
        homes.as_slice(),
        214,
        first,
        last,
    )
}

#[test]
fn a_small_group_is_whole_or_not_there(rt: HostRuntime) -> Result<(), Fail> {
    // The meter, the closing's barrier, the blocks, a page of slots and one of the active log, the body, its barrier,
    // the gate and its barrier.
    let alloc = rt.alloc();
    crash_at_each_call(&rt, alloc, &[], &[], 8)?;
    let once = entry(2, 101, 3, 1);
    crash_at_each_call(&rt, alloc, &[slot(3, 0, &once)], &[once], 9)?;
    let twice = entry(2, 101, 3, 2);
    let sharing = [slot(3, 65_535, &twice), slot(4, 0, &twice)];
    crash_at_each_call(&rt, alloc, &sharing, &[twice], 9)?;
    let [_, home, other] = homes();
    let [_, held, last] = slots();
    crash_at_each_call(&rt, alloc, &[held, last], &[home, other], 10)
}

#[test]
fn a_group_cut_short_in_its_first_100_blocks_is_not_there(rt: HostRuntime) -> Result<(), Fail> {
    crash_200_between(&rt, rt.alloc(), 1, 102)
}

#[test]
fn a_group_cut_short_in_its_last_100_blocks_is_not_there(rt: HostRuntime) -> Result<(), Fail> {
    crash_200_between(&rt, rt.alloc(), 103, 202)
}

#[test]
fn a_group_of_200_pointers_is_whole_or_not_there(rt: HostRuntime) -> Result<(), Fail> {
    crash_200_between(&rt, rt.alloc(), 203, 215)
}
