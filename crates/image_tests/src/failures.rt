use crate::comparing::{assert_same, assert_same_at};
use crate::crashes::{assert_is_of, homes, slots, two_writes, with_a_pointer};
use crate::groups::{assert_holds, entry, group_of};
use crate::silent_disk::{SilentDisk, calls_of, small_disk};
use crate::sound_pool::{SoundPool, created, fault_of, imported};
use ddt_entry::Entry;
use grant_book::GrantBook;
use pool_model::{ChangeList, Closed, Outcome, SyncFault};
use std::alloc::Global;
use std::process::Abort;
use std::test::Fail;
use table_state::Pool;

/// How a sync of two writes ends of which this call fails, and the group that the disk has then. The ninth call is the
/// write of the gate, which isn't there if it fails, and the tenth the barrier behind it.
const FAULTS: [(u64, SyncFault, u64); 10] = [
    (1, SyncFault::WriteFault, 2),
    (2, SyncFault::WriteFault, 2),
    (3, SyncFault::WriteFault, 2),
    (4, SyncFault::WriteFault, 2),
    (5, SyncFault::WriteFault, 2),
    (6, SyncFault::WriteFault, 2),
    (7, SyncFault::WriteFault, 2),
    (8, SyncFault::WriteFault, 2),
    (9, SyncFault::GateFault, 2),
    (10, SyncFault::GateFault, 3),
];

/// Makes a call of a disk fail, counted from the next one on.
fn fail_call(disk: &mut SilentDisk, failing: u64) {
    let made = calls_of(disk);
    disk.inner.fail_call(made.saturating_add(failing));
}

/// Sees that the sync of two writes ends in this fault, and leaves the pool of this group on the disk.
fn assert_fails(
    rt: &impl Abort,
    alloc: Global,
    disk: &mut SilentDisk,
    pool: SoundPool,
    fault: SyncFault,
    group: u64,
) -> Result<(), Fail> {
    let closed = two_writes(alloc)?;
    let synced = pool.synced(rt, alloc, disk, &closed);
    assert_same(rt, "the fault", fault_of(synced), Some(fault));
    let found = imported(rt, alloc, disk)?;
    assert_is_of(rt, alloc, &found, group)
}

/// Sees that it does so where this call fails.
fn assert_fails_at(
    rt: &impl Abort,
    alloc: Global,
    failing: u64,
    fault: SyncFault,
    group: u64,
) -> Result<(), Fail> {
    let (mut disk, pool) = with_a_pointer(rt, alloc)?;
    fail_call(&mut disk, failing);
    assert_fails(rt, alloc, &mut disk, pool, fault, group)
}

#[test]
fn a_fault_is_told_as_what_it_was(rt: HostRuntime) -> Result<(), Fail> {
    for (failing, fault, group) in FAULTS {
        assert_fails_at(&rt, rt.alloc(), failing, fault, group)?;
    }
    Ok(())
}

#[test]
fn a_read_that_fails_is_told_as_such(rt: HostRuntime) -> Result<(), Fail> {
    // The new seal has the first meter, the import the second, and the two syncs one each, whose one read is that
    // of the gate.
    let (mut disk, pool) = with_a_pointer(&rt, rt.alloc())?;
    disk.inner.fail_reads(4, 1, 1);
    let fault = SyncFault::ReadFault;
    assert_fails(&rt, rt.alloc(), &mut disk, pool, fault, 2)
}

/// An entry for each sector up to this one that isn't used.
fn free_up_to(
    rt: &impl Abort,
    alloc: Global,
    book: &GrantBook,
    last: u64,
) -> Result<Vec<Entry>, Fail> {
    let mut blocks = Vec::new(alloc);
    for place in 32..2048u64 {
        if place <= last && is_free(rt, book, place) {
            blocks.push(entry(7, place, 3, 1))?;
        }
    }
    Ok(blocks)
}

/// Whether this sector isn't used.
fn is_free(rt: &impl Abort, book: &GrantBook, place: u64) -> bool {
    assert!(rt; place < book.len());
    !book.has(place)
}

/// The group that has a block in each free sector up to this one, and changes nothing.
fn blocks_up_to(rt: &impl Abort, alloc: Global, pool: &Pool, last: u64) -> Result<Closed, Fail> {
    let blocks = free_up_to(rt, alloc, &pool.book, last)?;
    let mut closed = group_of(alloc, &[], blocks.as_slice())?;
    closed.changes = ChangeList::new(alloc);
    Ok(closed)
}

/// Sees that a group is refused before a call of the disk is made.
fn assert_refused(
    rt: &impl Abort,
    alloc: Global,
    disk: &mut SilentDisk,
    pool: SoundPool,
    closed: &Closed,
) {
    let made = calls_of(disk);
    let synced = pool.synced(rt, alloc, disk, closed);
    assert_same(
        rt,
        "the fault",
        fault_of(synced),
        Some(SyncFault::Damaged(0)),
    );
    assert_same(rt, "the calls", calls_of(disk), made);
}

/// Sees that a group is refused which has blocks up to this sector, before a call of the disk is made.
fn assert_no_room(rt: &impl Abort, alloc: Global, last: u64) -> Result<(), Fail> {
    let (mut disk, pool) = with_a_pointer(rt, alloc)?;
    let closed = blocks_up_to(rt, alloc, &pool.pool, last)?;
    assert_refused(rt, alloc, &mut disk, pool, &closed);
    let found = imported(rt, alloc, &mut disk)?;
    assert_is_of(rt, alloc, &found, 2)
}

/// Sees that a disk has the pool of this group, in which nothing was changed since group 2.
fn assert_unchanged(
    rt: &impl Abort,
    alloc: Global,
    disk: &mut SilentDisk,
    group: u64,
) -> Result<(), Fail> {
    let found = imported(rt, alloc, disk)?;
    let [home, _, _] = homes();
    let [held, _, _] = slots();
    assert_holds(rt, alloc, &found, group, &[held], &[home])
}

/// Sees that a group is synced which has blocks up to this sector.
fn assert_has_room(rt: &impl Abort, alloc: Global, last: u64) -> Result<(), Fail> {
    let (mut disk, pool) = with_a_pointer(rt, alloc)?;
    let closed = blocks_up_to(rt, alloc, &pool.pool, last)?;
    let synced = pool.synced(rt, alloc, &mut disk, &closed);
    assert_same_at(rt, "blocks up to", last, fault_of(synced), None);
    assert_unchanged(rt, alloc, &mut disk, 3)
}

#[test]
fn without_room_for_the_pages_nothing_is_written(rt: HostRuntime) -> Result<(), Fail> {
    // One page of slots and one of the active log. The group has a block in each free sector up to this one, and of
    // the 2,048 sectors the last two, the last, or none are then free.
    assert_has_room(&rt, rt.alloc(), 2045)?;
    assert_no_room(&rt, rt.alloc(), 2046)?;
    assert_no_room(&rt, rt.alloc(), 2047)
}

/// The outcome of a group of so many commands and writes for which a pool has no room.
fn lacking(rt: &impl Abort, pool: &Pool, commands: u64, writes: u64) -> Option<Outcome> {
    assert!(rt; commands <= 1_048_576);
    assert!(rt; writes <= 1_048_576);
    pool.no_space(commands, writes)
}

/// Sees that an empty pool has no room for a group of so many commands and writes, which needs so many sectors.
fn assert_lacks(rt: &impl Abort, pool: &Pool, commands: u64, writes: u64, need: u64) {
    let outcome = Outcome::NoSpace { need, free: 2016 };
    let told = lacking(rt, pool, commands, writes);
    assert_same_at(rt, "the room for", commands, told, Some(outcome));
}

/// Sees that it has room for so many.
fn assert_fits(rt: &impl Abort, pool: &Pool, commands: u64, writes: u64) {
    let told = lacking(rt, pool, commands, writes);
    assert_same_at(rt, "the room for", commands, told, None);
}

/// Sees which groups fit in an empty pool of 2,048 sectors: it has no pages, and 2,016 of its sectors are free.
fn assert_rooms(rt: &impl Abort, pool: &Pool) {
    assert_fits(rt, pool, 64, 64);
    assert_lacks(rt, pool, 65, 65, 2027);
    assert_fits(rt, pool, 65, 54);
    assert_lacks(rt, pool, 66, 54, 2028);
    assert_fits(rt, pool, 1, 0);
    assert_same(rt, "the need", pool.need(1, 0), 398);
}

#[test]
fn a_group_that_needs_more_than_is_free_has_no_space(rt: HostRuntime) -> Result<(), Fail> {
    let mut disk = small_disk(rt.alloc())?;
    let made = created(&rt, rt.alloc(), &mut disk)?;
    let pool = &made.pool;
    let told = (pool.group(), pool.pages(), pool.free());
    assert_same(&rt, "the pool", told, (1, 0, 2016));
    assert_rooms(&rt, pool);
    Ok(())
}
