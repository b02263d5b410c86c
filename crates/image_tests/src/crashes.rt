use crate::comparing::assert_same;
use crate::groups::{assert_holds, entry, group_of, slot};
use crate::silent_disk::{SilentDisk, small_disk};
use crate::sound_pool::{SoundPool, created, imported};
use ddt_entry::Entry;
use pool_model::Closed;
use slot_table::SlotRecord;
use std::alloc::{AllocError, Global};
use std::process::Abort;
use std::test::Fail;

/// The disk that a crash by this choice leaves.
pub(crate) fn crashed(rt: &impl Abort, disk: SilentDisk, choice: u8) -> Result<SilentDisk, Fail> {
    assert!(rt; choice <= 3);
    let SilentDisk { inner } = disk;
    match inner.crash(choice) {
        Ok(inner) => Ok(SilentDisk { inner }),
        Err(_) => Err("no memory for the crash".into()),
    }
}

/// The homes that are in the pool after its group 3, of which group 2 made the first.
pub(crate) fn homes() -> [Entry; 3] {
    [
        entry(1, 100, 2, 1),
        entry(2, 101, 3, 1),
        entry(3, 102, 3, 1),
    ]
}

/// Their slots.
pub(crate) fn slots() -> [SlotRecord; 3] {
    let [first, second, third] = homes();
    [slot(2, 7, &first), slot(2, 8, &second), slot(3, 0, &third)]
}

/// A disk with a pool of one pointer, of group 2, and that pool.
pub(crate) fn with_a_pointer(
    rt: &impl Abort,
    alloc: Global,
) -> Result<(SilentDisk, SoundPool), Fail> {
    let mut disk = small_disk(alloc)?;
    created(rt, alloc, &mut disk)?;
    let empty = imported(rt, alloc, &mut disk)?;
    let first = one_write(alloc)?;
    let Ok(pool) = empty.synced(rt, alloc, &mut disk, &first) else {
        return Err("the first group isn't synced".into());
    };
    assert_same(rt, "the first group", pool.pool.sealed, 2);
    Ok((disk, pool))
}

/// The group that writes the first of them.
fn one_write(alloc: Global) -> Result<Closed, AllocError> {
    let [home, _, _] = homes();
    let [held, _, _] = slots();
    group_of(alloc, &[held], &[home])
}

/// The group of two writes that comes next.
pub(crate) fn two_writes(alloc: Global) -> Result<Closed, Fail> {
    let [_, home, other] = homes();
    let [_, held, last] = slots();
    Ok(group_of(alloc, &[held, last], &[home, other])?)
}

/// Sees that a pool is the one after this group, of the two that it may be.
pub(crate) fn assert_is_of(
    rt: &impl Abort,
    alloc: Global,
    sound: &SoundPool,
    group: u64,
) -> Result<(), Fail> {
    let [home, other, third] = homes();
    let [held, next, last] = slots();
    if group == 2 {
        assert_holds(rt, alloc, sound, 2, &[held], &[home])
    } else {
        assert_holds(
            rt,
            alloc,
            sound,
            3,
            &[held, next, last],
            &[home, other, third],
        )
    }
}
