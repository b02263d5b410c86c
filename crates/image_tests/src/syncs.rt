use crate::comparing::{assert_same, assert_same_at};
use crate::groups::{assert_holds, entry, group_of, slot};
use crate::silent_disk::{SilentDisk, small_disk};
use crate::sound_pool::{SoundPool, created, imported};
use ddt_entry::Entry;
use disk_model::Disk;
use pool_model::{Closed, Mode};
use slot_table::SlotRecord;
use std::alloc::Global;
use std::process::Abort;
use std::test::Fail;

/// A pool with its disk, and what was put into it, in rising order.
#[derive(Drop)]
struct Filled {
    disk: SilentDisk,
    /// The pool in memory, which goes on from sync to sync.
    pool: Option<SoundPool>,
    slots: Vec<SlotRecord>,
    homes: Vec<Entry>,
}

/// Creates an empty pool on a disk.
fn create_on(rt: &impl Abort, alloc: Global, disk: &mut SilentDisk) -> Result<(), Fail> {
    let made = created(rt, alloc, disk)?;
    assert_holds(rt, alloc, &made, 1, &[], &[])
}

/// The empty pool that a disk has to import.
fn empty_on(rt: &impl Abort, alloc: Global, disk: &mut SilentDisk) -> Result<SoundPool, Fail> {
    let pool = imported(rt, alloc, disk)?;
    assert_holds(rt, alloc, &pool, 1, &[], &[])?;
    Ok(pool)
}

/// A new pool.
fn new_pool(rt: &impl Abort, alloc: Global) -> Result<Filled, Fail> {
    let mut disk = small_disk(alloc)?;
    create_on(rt, alloc, &mut disk)?;
    let pool = empty_on(rt, alloc, &mut disk)?;
    Ok(Filled {
        disk,
        pool: Some(pool),
        slots: Vec::new(alloc),
        homes: Vec::new(alloc),
    })
}

/// The first six bytes of a sector.
fn front_of(rt: &impl Abort, disk: &mut SilentDisk, place: u64) -> Result<[u8; 6], Fail> {
    let mut bytes = [0; 4096];
    let mut meter = disk.meter()?;
    assert!(rt; place < disk.sectors());
    let answer = disk.read(&mut meter, place, &mut bytes);
    disk.retire(meter);
    answer?;
    Ok([bytes[0], bytes[1], bytes[2], bytes[3], bytes[4], bytes[5]])
}

/// Syncs a group of these slots and entries behind what was put in before, and imports the pool, which then
/// has to have this group's number, all slots and homes so far, and so many pages. The lengths are those of the
/// imported pool's table.
fn put(
    rt: &impl Abort,
    alloc: Global,
    filled: &mut Filled,
    group: u64,
    slots: &[SlotRecord],
    homes: &[Entry],
    pages: u64,
) -> Result<[u64; 3], Fail> {
    let closed = with_settings(alloc, group, slots, homes)?;
    note_group(filled, slots, homes)?;
    let pool = sync_group(rt, alloc, filled, group, &closed)?;
    assert_put(rt, alloc, filled, &pool, group, pages)?;
    filled.pool = Some(pool);
    blocks_are_there(rt, &mut filled.disk, homes)?;
    import_put(rt, alloc, filled, &closed, group, pages)
}

/// Notes these slots and homes behind those that were put in before.
fn note_group(filled: &mut Filled, slots: &[SlotRecord], homes: &[Entry]) -> Result<(), Fail> {
    filled.slots.extend_from_slice(slots)?;
    filled.homes.extend_from_slice(homes)?;
    Ok(())
}

/// The pool once a group is synced, which has to get this number.
fn sync_group(
    rt: &impl Abort,
    alloc: Global,
    filled: &mut Filled,
    group: u64,
    closed: &Closed,
) -> Result<SoundPool, Fail> {
    let Some(before) = filled.pool.take() else {
        return Err("there is no pool in memory".into());
    };
    let Ok(pool) = before.synced(rt, alloc, &mut filled.disk, closed) else {
        return Err("a group isn't synced".into());
    };
    assert_same_at(rt, "the sync of group", group, pool.pool.sealed, group);
    Ok(pool)
}

/// Imports the pool, which has to have all that was put in so far, and the settings of this group. The lengths are
/// those of its table.
fn import_put(
    rt: &impl Abort,
    alloc: Global,
    filled: &mut Filled,
    closed: &Closed,
    group: u64,
    pages: u64,
) -> Result<[u64; 3], Fail> {
    let again = imported(rt, alloc, &mut filled.disk)?;
    assert_put(rt, alloc, filled, &again, group, pages)?;
    settings_are(rt, &again, closed);
    Ok(lengths(&again))
}

/// How many entries the stored table of a pool has, and how many changes its flushing and its active log.
fn lengths(sound: &SoundPool) -> [u64; 3] {
    let table = &sound.pool.table;
    [table.classes.len(), table.logs.len(1), table.logs.len(0)]
}

/// The group of these slots and entries, with settings that change from group to group.
fn with_settings(
    alloc: Global,
    group: u64,
    slots: &[SlotRecord],
    homes: &[Entry],
) -> Result<Closed, Fail> {
    let mut closed = group_of(alloc, slots, homes)?;
    closed.quota = Some(group);
    closed.modes[3] = mode_of(group);
    Ok(closed)
}

/// The mode that lane 3 gets in a group.
fn mode_of(group: u64) -> Mode {
    if group % 2 == 0 {
        Mode::Verify
    } else {
        Mode::Off
    }
}

/// Sees that a pool has a group's number, all that was put in so far, and so many pages.
fn assert_put(
    rt: &impl Abort,
    alloc: Global,
    filled: &Filled,
    sound: &SoundPool,
    group: u64,
    pages: u64,
) -> Result<(), Fail> {
    let (slots, homes) = (filled.slots.as_slice(), filled.homes.as_slice());
    assert_holds(rt, alloc, sound, group, slots, homes)?;
    let named = sound.pool.pages.len();
    assert_same_at(rt, "the pages of group", group, named, pages);
    Ok(())
}

/// Sees that the blocks of these entries stand at their places.
fn blocks_are_there(rt: &impl Abort, disk: &mut SilentDisk, homes: &[Entry]) -> Result<(), Fail> {
    for home in homes {
        block_is_there(rt, disk, home.home.place, home.key.digest[0])?;
    }
    Ok(())
}

/// Sees that a block of five bytes of this value stands at this place.
fn block_is_there(
    rt: &impl Abort,
    disk: &mut SilentDisk,
    place: u64,
    byte: u8,
) -> Result<(), Fail> {
    let front = front_of(rt, disk, place)?;
    let block = [byte, byte, byte, byte, byte, 0];
    assert_same_at(rt, "the block at", place, front, block);
    Ok(())
}

/// Sees that a pool has the settings of a group.
fn settings_are(rt: &impl Abort, sound: &SoundPool, closed: &Closed) {
    assert_same(rt, "the quota", sound.pool.limit, closed.quota);
    let (modes, wanted) = (sound.pool.modes.as_slice(), closed.modes.as_slice());
    assert_same(rt, "the modes", modes, wanted);
}

/// 200 homes of their own keys, at places from 200 on, made by this group.
pub(crate) fn two_hundred(alloc: Global, group: u64) -> Result<Vec<Entry>, Fail> {
    let mut homes = Vec::new(alloc);
    for at in 0..200u8 {
        homes.push(entry(at + 11, 200 + at as u64, group, 1))?;
    }
    Ok(homes)
}

/// A slot of lane 5 for each of these homes.
pub(crate) fn slots_for(alloc: Global, homes: &[Entry]) -> Result<Vec<SlotRecord>, Fail> {
    let mut slots = Vec::new(alloc);
    let mut at = 0u32;
    for home in homes {
        slots.push(slot(5, at, home))?;
        at = at.saturating_add(1);
    }
    Ok(slots)
}

/// Puts 200 pointers in as group 5, behind three.
fn put_two_hundred(rt: &impl Abort, alloc: Global, filled: &mut Filled) -> Result<(), Fail> {
    // 203 slots take 4 pages of 56, and 202 changes take 4.
    let homes = two_hundred(alloc, 5)?;
    let slots = slots_for(alloc, homes.as_slice())?;
    let told = put(rt, alloc, filled, 5, slots.as_slice(), homes.as_slice(), 8)?;
    assert_same(rt, "the table", told, [0, 0, 202]);
    Ok(())
}

/// Puts one pointer in as group 3, and two that share a block as group 4.
fn put_three(rt: &impl Abort, alloc: Global, filled: &mut Filled) -> Result<(), Fail> {
    // A page of one slot, and one of one change in the active log.
    let once = entry(1, 100, 3, 1);
    put(rt, alloc, filled, 3, &[slot(2, 7, &once)], &[once], 2)?;
    let twice = entry(2, 101, 4, 2);
    let sharing = [slot(3, 65_535, &twice), slot(4, 0, &twice)];
    put(rt, alloc, filled, 4, &sharing, &[twice], 2)?;
    Ok(())
}

/// Puts nothing in, then these, and nothing again.
fn put_all(rt: &impl Abort, alloc: Global, filled: &mut Filled) -> Result<(), Fail> {
    put(rt, alloc, filled, 2, &[], &[], 0)?;
    put_three(rt, alloc, filled)?;
    put_two_hundred(rt, alloc, filled)?;
    put(rt, alloc, filled, 6, &[], &[], 8)?;
    Ok(())
}

#[test]
fn what_was_synced_is_imported(rt: HostRuntime) -> Result<(), Fail> {
    let mut filled = new_pool(&rt, rt.alloc())?;
    put_all(&rt, rt.alloc(), &mut filled)
}

/// How many entries and changes the table has after groups 3 to 10 that put nothing in: stored ones, flushing ones,
/// active ones. The eighth group makes the active log the flushing one, and the ninth flushes it.
const SWAPPED_AND_FLUSHED: [(u64, [u64; 3]); 8] = [
    (3, [0, 0, 1]),
    (4, [0, 0, 1]),
    (5, [0, 0, 1]),
    (6, [0, 0, 1]),
    (7, [0, 0, 1]),
    (8, [0, 0, 1]),
    (9, [0, 1, 0]),
    (10, [1, 0, 0]),
];

/// Puts a group in that has nothing, and sees these lengths of the table.
fn put_nothing(
    rt: &impl Abort,
    alloc: Global,
    filled: &mut Filled,
    group: u64,
    wanted: [u64; 3],
) -> Result<(), Fail> {
    let told = put(rt, alloc, filled, group, &[], &[], 2)?;
    assert_same_at(rt, "the table after group", group, told, wanted);
    Ok(())
}

/// Sees that the pool that is imported has this entry alone in its stored table, which was flushed once.
fn assert_flushed(
    rt: &impl Abort,
    alloc: Global,
    filled: &mut Filled,
    home: Entry,
) -> Result<(), Fail> {
    let last = imported(rt, alloc, &mut filled.disk)?;
    let table = &last.pool.table;
    let stored = table.classes.listed(alloc)?;
    assert_same(rt, "the table", stored.as_slice(), [home].as_slice());
    assert_same(rt, "the flushes", table.age, 1);
    Ok(())
}

/// Puts groups in that have nothing, until the logs are flushed.
fn put_until_flushed(rt: &impl Abort, alloc: Global, filled: &mut Filled) -> Result<(), Fail> {
    for (group, wanted) in SWAPPED_AND_FLUSHED {
        put_nothing(rt, alloc, filled, group, wanted)?;
    }
    Ok(())
}

/// Puts one pointer in, and then nothing until the logs are flushed.
fn put_and_flush(rt: &impl Abort, alloc: Global, filled: &mut Filled) -> Result<(), Fail> {
    // The entry is on one page all the while, and the slot on another.
    let home = entry(1, 100, 2, 1);
    put(rt, alloc, filled, 2, &[slot(0, 0, &home)], &[home], 2)?;
    put_until_flushed(rt, alloc, filled)?;
    assert_flushed(rt, alloc, filled, home)
}

#[test]
fn the_logs_are_swapped_and_flushed(rt: HostRuntime) -> Result<(), Fail> {
    let mut filled = new_pool(&rt, rt.alloc())?;
    put_and_flush(&rt, rt.alloc(), &mut filled)
}
