use crate::comparing::assert_same;
use crate::importing::imported;
use crate::parts::{
    NULL, Sums, entry, entry_record, gone_record, key, of_one_pointer, put, seal_of, slot,
    slot_record, small_disk,
};
use ddt_entry::{Change, Sha256Key};
use disk_model::MemDisk;
use grant_book::GrantBook;
use log_pair::LogPair;
use pool_import::import;
use pool_model::Mode;
use std::alloc::Global;
use std::process::Abort;
use std::test::Fail;
use table_state::{Pool, new_seal};
use uber_ring::Seal;

/// Whether a sector is used.
fn is_used(rt: &impl Abort, book: &GrantBook, sector: u64) -> bool {
    assert!(rt; sector < book.len());
    book.has(sector)
}

/// How many of the first 200 sectors are used, and which is the last of them.
fn used_of(rt: &impl Abort, book: &GrantBook) -> (u64, u64) {
    let mut count = 0u64;
    let mut last = 0;
    for sector in 0..200u64 {
        if is_used(rt, book, sector) {
            count = count.saturating_add(1);
            last = sector;
        }
    }
    (count, last)
}

/// Sees that a pool has nothing in it.
fn assert_is_empty(rt: &impl Abort, pool: &Pool) {
    let told = (pool.slots.len(), pool.pages.len(), pool.table.classes.len());
    assert_same(rt, "the lengths", told, (0, 0, 0));
    assert_same(rt, "the keys", pool.keys, 0);
    assert_same(rt, "the used sectors", used_of(rt, &pool.book), (32, 31));
}

/// Sees that a pool has the settings and the numbers of a new one.
fn assert_is_new(rt: &impl Abort, pool: &Pool) {
    assert_same(rt, "the modes", pool.modes, [Mode::On; 16]);
    assert_same(rt, "the quota", pool.limit, None);
    let told = (pool.tag, pool.sealed, pool.sectors);
    assert_same(rt, "the numbers", told, (1, 1, 2048));
}

#[test]
fn a_new_pool_is_imported_empty(rt: HostRuntime) -> Result<(), Fail> {
    let mut disk = small_disk(rt.alloc())?;
    let pool = imported(&rt, rt.alloc(), &mut disk, &new_seal(1, 2048))?;
    assert_is_empty(&rt, &pool);
    assert_is_new(&rt, &pool);
    Ok(())
}

/// Sees that a pool is the one with one pointer.
fn assert_has_one(rt: &impl Abort, alloc: Global, pool: &Pool) -> Result<(), Fail> {
    let (slots, homes) = ([slot(7, 1, 100)], [entry(1, 100, 1)]);
    let held = pool.slots.slots(alloc)?;
    assert_same(rt, "slots", held.as_slice(), slots.as_slice());
    let stored = pool.table.classes.listed(alloc)?;
    assert_same(rt, "homes", stored.as_slice(), homes.as_slice());
    assert_same(rt, "the keys", pool.keys, 1);
    assert_same(rt, "pages", pool.pages.as_slice(), [50, 49].as_slice());
    assert_same(rt, "the used sectors", used_of(rt, &pool.book), (35, 100));
    Ok(())
}

#[test]
fn a_pointer_and_its_home_are_imported(rt: HostRuntime) -> Result<(), Fail> {
    let mut disk = small_disk(rt.alloc())?;
    let seal = of_one_pointer(&rt, &mut disk)?;
    let pool = imported(&rt, rt.alloc(), &mut disk, &seal)?;
    assert_has_one(&rt, rt.alloc(), &pool)
}

/// The seal of a pool in which two slots share a block, a home waits, and a key has gone.
fn of_shared_and_waiting(rt: &impl Abort, disk: &mut MemDisk) -> Result<Seal, Fail> {
    let sharing = [slot_record(7, 1, 100), slot_record(8, 1, 100)];
    let slots = put(rt, disk, &sharing, 50)?;
    let duplicate = put(rt, disk, &[entry_record(rt, 1, 100, 2)], 48)?;
    let logged = [entry_record(rt, 2, 101, 0), gone_record(rt, 3)];
    let active = put(rt, disk, &logged, 47)?;
    let sums = Sums {
        homes: 1,
        counts: 2,
        pages: 3,
        active: 2,
        flushing: 0,
    };
    Ok(seal_of([slots, NULL, duplicate, active, NULL, NULL], sums))
}

/// Sees that a pool is that one.
fn assert_has_shared(rt: &impl Abort, alloc: Global, pool: &Pool) -> Result<(), Fail> {
    let slots = [slot(7, 1, 100), slot(8, 1, 100)];
    let homes = [entry(1, 100, 2)];
    let held = pool.slots.slots(alloc)?;
    assert_same(rt, "slots", held.as_slice(), slots.as_slice());
    let stored = pool.table.classes.listed(alloc)?;
    assert_same(rt, "homes", stored.as_slice(), homes.as_slice());
    assert_same(rt, "the keys", pool.keys, 1);
    assert_same(rt, "changes", pool.table.logs.len(0), 2);
    assert_same(rt, "the used sectors", used_of(rt, &pool.book), (37, 101));
    Ok(())
}

#[test]
fn a_shared_and_a_waiting_home_are_imported(rt: HostRuntime) -> Result<(), Fail> {
    let mut disk = small_disk(rt.alloc())?;
    let seal = of_shared_and_waiting(&rt, &mut disk)?;
    let pool = imported(&rt, rt.alloc(), &mut disk, &seal)?;
    assert_has_shared(&rt, rt.alloc(), &pool)
}

/// The seal of an empty pool of group 17 with settings.
fn with_settings() -> Seal {
    let mut seal = new_seal(1, 2048);
    seal.group = 17;
    seal.quota = 4096;
    seal.quota_flag = 1;
    seal.modes = [0, 1, 2, 1, 1, 1, 1, 1, 1, 1, 1, 1, 1, 1, 1, 2];
    seal.age = 3;
    seal
}

/// Sees that a pool has them.
fn assert_has_settings(rt: &impl Abort, pool: &Pool) {
    let told = (pool.limit, pool.table.age, pool.sealed);
    assert_same(rt, "the settings", told, (Some(4096), 3, 17));
    let modes = pool.modes;
    let told = [modes[0], modes[1], modes[2], modes[15]];
    let wanted = [Mode::Off, Mode::On, Mode::Verify, Mode::Verify];
    assert_same(rt, "the modes", told, wanted);
}

#[test]
fn settings_are_imported(rt: HostRuntime) -> Result<(), Fail> {
    let mut disk = small_disk(rt.alloc())?;
    let pool = imported(&rt, rt.alloc(), &mut disk, &with_settings())?;
    assert_has_settings(&rt, &pool);
    Ok(())
}

/// The seal of a pool from which three keys go: the first is flushed, the second is gone in the active log already.
fn of_a_flushing_log(rt: &impl Abort, disk: &mut MemDisk) -> Result<Seal, Fail> {
    let [first, second, third] = [gone_record(rt, 1), gone_record(rt, 2), gone_record(rt, 3)];
    let active = put(rt, disk, &[second], 41)?;
    let flushing = put(rt, disk, &[first, second, third], 40)?;
    let sums = Sums {
        homes: 0,
        counts: 0,
        pages: 2,
        active: 1,
        flushing: 3,
    };
    let seal = seal_of([NULL, NULL, NULL, active, flushing, NULL], sums);
    Ok(with_checkpoint(seal))
}

/// A seal with a checkpoint at the first key.
fn with_checkpoint(seal: Seal) -> Seal {
    let mut seal = seal;
    seal.checkpoint_flag = 1;
    seal.checkpoint_len = 5;
    seal.checkpoint_digest = [1; 32];
    seal
}

/// The sorted list of the active log (0) or of the flushing log (1).
fn listed(rt: &impl Abort, alloc: Global, logs: &LogPair, at: u32) -> Result<Vec<Change>, Fail> {
    assert!(rt; at < 2);
    let mut list = Vec::new(alloc);
    for change in logs.walk(at) {
        list.push(*change)?;
    }
    Ok(list)
}

/// Sees that a pool has the logs of that one.
fn assert_has_logs(rt: &impl Abort, alloc: Global, pool: &Pool) -> Result<(), Fail> {
    let (active, flushing) = ([Change::Gone(key(2))], [Change::Gone(key(3))]);
    let logs = &pool.table.logs;
    let last = listed(rt, alloc, logs, 0)?;
    assert_same(rt, "active", last.as_slice(), active.as_slice());
    let left = listed(rt, alloc, logs, 1)?;
    assert_same(rt, "flushing", left.as_slice(), flushing.as_slice());
    assert_same(rt, "the checkpoint", logs.checkpoint(), Some(key(1)));
    Ok(())
}

/// Sees that the logs of a pool keep these changes.
fn assert_keeps(rt: &impl Abort, pool: &Pool, active: &[Change], flushing: &[Change]) {
    let logs = &pool.table.logs;
    assert_same(rt, "kept", logs.kept(0), active);
    assert_same(rt, "kept back", logs.kept(1), flushing);
}

#[test]
fn a_flushing_log_is_left_past_its_checkpoint(rt: HostRuntime) -> Result<(), Fail> {
    let mut disk = small_disk(rt.alloc())?;
    let seal = of_a_flushing_log(&rt, &mut disk)?;
    let pool = imported(&rt, rt.alloc(), &mut disk, &seal)?;
    assert_has_logs(&rt, rt.alloc(), &pool)?;
    let [first, second, third] = [1, 2, 3].map(|byte| Change::Gone(key(byte)));
    assert_keeps(&rt, &pool, &[second], &[first, second, third]);
    Ok(())
}

/// The seal of a pool in which two slots share a block. Its home was logged with one pointer, then with two.
fn of_a_key_logged_twice(rt: &impl Abort, disk: &mut MemDisk) -> Result<Seal, Fail> {
    let sharing = [slot_record(7, 1, 100), slot_record(8, 1, 100)];
    let slots = put(rt, disk, &sharing, 50)?;
    let (once, twice) = (entry_record(rt, 1, 100, 1), entry_record(rt, 1, 100, 2));
    let active = put(rt, disk, &[once, gone_record(rt, 3), twice], 47)?;
    let sums = Sums {
        homes: 1,
        counts: 2,
        pages: 2,
        active: 3,
        flushing: 0,
    };
    Ok(seal_of([slots, NULL, NULL, active, NULL, NULL], sums))
}

/// Sees that a pool is that one, with the last home of the key.
fn assert_has_last(rt: &impl Abort, alloc: Global, pool: &Pool) -> Result<(), Fail> {
    let twice = entry(1, 100, 2);
    let last = [Change::Entry(twice), Change::Gone(key(3))];
    let active = listed(rt, alloc, &pool.table.logs, 0)?;
    assert_same(rt, "active", active.as_slice(), last.as_slice());
    assert_same(rt, "the keys", pool.keys, 1);
    assert_same(rt, "flushing", pool.table.logs.len(1), 0);
    let found = pool.table.found(&key(1));
    assert_same(rt, "the home", found, Some(twice.home));
    assert_same(rt, "the used sectors", used_of(rt, &pool.book), (35, 100));
    Ok(())
}

#[test]
fn a_key_that_is_logged_twice_has_its_last_home(rt: HostRuntime) -> Result<(), Fail> {
    let mut disk = small_disk(rt.alloc())?;
    let seal = of_a_key_logged_twice(&rt, &mut disk)?;
    let pool = imported(&rt, rt.alloc(), &mut disk, &seal)?;
    assert_has_last(&rt, rt.alloc(), &pool)?;
    let (once, twice) = (entry(1, 100, 1), entry(1, 100, 2));
    let logged = [
        Change::Entry(once),
        Change::Gone(key(3)),
        Change::Entry(twice),
    ];
    assert_keeps(&rt, &pool, logged.as_slice(), &[]);
    Ok(())
}

/// The seal of a pool of which the flushing log was flushed up to the first key. It names the second key twice, and
/// the active log the third: that one's home waits.
fn of_a_key_flushing_twice(rt: &impl Abort, disk: &mut MemDisk) -> Result<Seal, Fail> {
    let held = [(7, 1, 100), (8, 2, 101), (9, 2, 101)];
    let slots = held.map(|(number, byte, place)| slot_record(number, byte, place));
    let first = entry_record(rt, 1, 100, 1);
    let (once, twice) = (entry_record(rt, 2, 101, 1), entry_record(rt, 2, 101, 2));
    let flushing = [once, first, gone_record(rt, 3), twice];
    let active = [entry_record(rt, 3, 102, 1), entry_record(rt, 3, 102, 0)];
    let roots = [
        put(rt, disk, &slots, 50)?,
        put(rt, disk, &[first], 49)?,
        NULL,
        put(rt, disk, &active, 41)?,
        put(rt, disk, &flushing, 40)?,
        NULL,
    ];
    let sums = Sums {
        homes: 2,
        counts: 3,
        pages: 4,
        active: 2,
        flushing: 4,
    };
    Ok(with_checkpoint(seal_of(roots, sums)))
}

/// Sees that a pool is that one, with the last home of each key.
fn assert_has_left(rt: &impl Abort, alloc: Global, pool: &Pool) -> Result<(), Fail> {
    let (twice, waiting) = (entry(2, 101, 2), entry(3, 102, 0));
    let (active, flushing) = ([Change::Entry(waiting)], [Change::Entry(twice)]);
    let table = &pool.table;
    let last = listed(rt, alloc, &table.logs, 0)?;
    assert_same(rt, "active", last.as_slice(), active.as_slice());
    let left = listed(rt, alloc, &table.logs, 1)?;
    assert_same(rt, "flushing", left.as_slice(), flushing.as_slice());
    assert_same(rt, "the keys", pool.keys, 2);
    let found = [1, 2, 3].map(|byte| table.found(&key(byte)));
    let homes = [entry(1, 100, 1), twice, waiting].map(|entry| Some(entry.home));
    assert_same(rt, "the homes", found, homes);
    assert_same(rt, "the used sectors", used_of(rt, &pool.book), (39, 102));
    Ok(())
}

/// Sees that its logs keep all that was appended, also what is flushed.
fn assert_keeps_all(rt: &impl Abort, pool: &Pool) {
    let active = [entry(3, 102, 1), entry(3, 102, 0)].map(|entry| Change::Entry(entry));
    let flushing = [
        Change::Entry(entry(2, 101, 1)),
        Change::Entry(entry(1, 100, 1)),
        Change::Gone(key(3)),
        Change::Entry(entry(2, 101, 2)),
    ];
    assert_keeps(rt, pool, active.as_slice(), flushing.as_slice());
}

#[test]
fn a_key_that_is_flushing_twice_has_its_last_home(rt: HostRuntime) -> Result<(), Fail> {
    let mut disk = small_disk(rt.alloc())?;
    let seal = of_a_key_flushing_twice(&rt, &mut disk)?;
    let pool = imported(&rt, rt.alloc(), &mut disk, &seal)?;
    assert_has_left(&rt, rt.alloc(), &pool)?;
    assert_keeps_all(&rt, &pool);
    Ok(())
}

#[test]
fn without_a_seal_there_is_no_pool(rt: HostRuntime) -> Result<(), Fail> {
    let mut disk = small_disk(rt.alloc())?;
    let _seal = of_one_pointer(&rt, &mut disk)?;
    let answer = import(rt.alloc(), &mut disk, &Sha256Key);
    assert!(rt; matches!(answer, Ok(None)));
    Ok(())
}
