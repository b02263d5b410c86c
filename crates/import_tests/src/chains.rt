use crate::comparing::{assert_same, assert_same_at};
use crate::parts::{
    NULL, Record, entry, entry_record, gone_record, key, put, slot, slot_record, small_disk,
};
use ddt_entry::Change;
use disk_model::{Disk, MemDisk};
use page_tree::{PageFault, PagePtr};
use pool_import::{FlatImage, read_flat};
use std::alloc::Global;
use std::process::Abort;
use std::test::Fail;
use table_state::new_seal;
use uber_ring::Seal;

/// Reads the image of this seal.
fn read(alloc: Global, disk: &mut MemDisk, seal: &Seal) -> Result<FlatImage, PageFault> {
    let Ok(mut meter) = disk.meter() else {
        return Err(PageFault::ReadFault);
    };
    let answer = read_flat(alloc, disk, &mut meter, seal);
    disk.retire(meter);
    answer
}

/// The seal over these chains, which says nothing of what they have.
fn seal_over(pointers: [PagePtr; 6]) -> Seal {
    let mut seal = new_seal(1, 2048);
    seal.pointers = pointers;
    seal
}

/// The fault of a read of these chains, where it fails.
fn fault_of(alloc: Global, disk: &mut MemDisk, pointers: [PagePtr; 6]) -> Option<PageFault> {
    read(alloc, disk, &seal_over(pointers)).err()
}

/// How many slots, unique and duplicate entries, active and flushing changes and sectors an image has.
fn lengths(flat: &FlatImage) -> [u64; 6] {
    [
        flat.slots.len(),
        flat.unique.len(),
        flat.duplicate.len(),
        flat.active.len(),
        flat.flushing.len(),
        flat.named.len(),
    ]
}

#[test]
fn a_new_image_has_no_parts(rt: HostRuntime) -> Result<(), Fail> {
    let mut disk = small_disk(rt.alloc())?;
    let flat = read(rt.alloc(), &mut disk, &new_seal(1, 2048))?;
    assert_same(&rt, "the lengths", lengths(&flat), [0; 6]);
    Ok(())
}

/// Writes a slot, an entry of each class, and a change in each log but for the active one, which has two.
fn five_chains(rt: &impl Abort, disk: &mut MemDisk) -> Result<[PagePtr; 6], Fail> {
    let unique = entry_record(rt, 1, 100, 1);
    let logged = [gone_record(rt, 3), unique];
    Ok([
        put(rt, disk, &[slot_record(7, 1, 100)], 50)?,
        put(rt, disk, &[unique], 49)?,
        put(rt, disk, &[entry_record(rt, 2, 101, 3)], 48)?,
        put(rt, disk, &logged, 47)?,
        put(rt, disk, &[entry_record(rt, 4, 102, 2)], 46)?,
        NULL,
    ])
}

/// Sees that the slots and the stored entries of an image are those of the five chains.
fn assert_has_entries(rt: &impl Abort, flat: &FlatImage) {
    let (once, more) = (entry(1, 100, 1), entry(2, 101, 3));
    let held = [slot(7, 1, 100)];
    assert_same(rt, "the slots", flat.slots.as_slice(), held.as_slice());
    assert_same(rt, "unique", flat.unique.as_slice(), [once].as_slice());
    assert_same(
        rt,
        "duplicate",
        flat.duplicate.as_slice(),
        [more].as_slice(),
    );
}

/// Sees that its logs and its pages are.
fn assert_has_logs(rt: &impl Abort, flat: &FlatImage) {
    let active = [Change::Gone(key(3)), Change::Entry(entry(1, 100, 1))];
    let flushing = [Change::Entry(entry(4, 102, 2))];
    let named = [50, 49, 48, 47, 46];
    assert_same(rt, "active", flat.active.as_slice(), active.as_slice());
    assert_same(
        rt,
        "flushing",
        flat.flushing.as_slice(),
        flushing.as_slice(),
    );
    assert_same(rt, "the pages", flat.named.as_slice(), named.as_slice());
}

#[test]
fn five_chains_are_read_in_the_order_of_the_seal(rt: HostRuntime) -> Result<(), Fail> {
    let mut disk = small_disk(rt.alloc())?;
    let seal = seal_over(five_chains(&rt, &mut disk)?);
    let flat = read(rt.alloc(), &mut disk, &seal)?;
    assert_has_entries(&rt, &flat);
    assert_has_logs(&rt, &flat);
    Ok(())
}

/// The pointers of a seal of which the chain with this number, from 0, is this one, and the others are empty.
fn only_chain(number: u64, root: PagePtr) -> [PagePtr; 6] {
    match number {
        0 => [root, NULL, NULL, NULL, NULL, NULL],
        1 => [NULL, root, NULL, NULL, NULL, NULL],
        2 => [NULL, NULL, root, NULL, NULL, NULL],
        3 => [NULL, NULL, NULL, root, NULL, NULL],
        _ => [NULL, NULL, NULL, NULL, root, NULL],
    }
}

/// Sees what a read tells where the chain with this number has this record, and the others have none.
fn assert_tells(
    rt: &impl Abort,
    alloc: Global,
    chain: u64,
    record: Record,
    wanted: Option<PageFault>,
) -> Result<(), Fail> {
    let mut disk = small_disk(alloc)?;
    let root = put(rt, &mut disk, &[record], 40)?;
    let told = fault_of(alloc, &mut disk, only_chain(chain, root));
    assert_same_at(rt, "chain", chain, told, wanted);
    Ok(())
}

/// Sees that a chain is read that has this record.
fn assert_read(rt: &impl Abort, alloc: Global, chain: u64, record: Record) -> Result<(), Fail> {
    assert_tells(rt, alloc, chain, record, None)
}

/// Sees that it is damage that a chain has this record.
fn assert_damaged(rt: &impl Abort, alloc: Global, chain: u64, record: Record) -> Result<(), Fail> {
    assert_tells(rt, alloc, chain, record, Some(PageFault::Damaged(40)))
}

#[test]
fn a_slot_that_spells_nothing_is_damage(rt: HostRuntime) -> Result<(), Fail> {
    // A slot past the disk, and an entry among the slots.
    assert_damaged(&rt, rt.alloc(), 0, slot_record(7, 1, 2048))?;
    assert_damaged(&rt, rt.alloc(), 0, entry_record(&rt, 1, 100, 1))
}

#[test]
fn an_entry_that_spells_nothing_is_damage(rt: HostRuntime) -> Result<(), Fail> {
    // A key that is gone among the entries.
    for chain in [1, 2] {
        assert_read(&rt, rt.alloc(), chain, entry_record(&rt, 1, 100, 1))?;
        assert_damaged(&rt, rt.alloc(), chain, gone_record(&rt, 1))?;
    }
    Ok(())
}

#[test]
fn a_change_that_spells_nothing_is_damage(rt: HostRuntime) -> Result<(), Fail> {
    // Neither an entry nor a key that is gone in the logs.
    for (chain, byte) in [(3, 0), (4, 3)] {
        assert_read(&rt, rt.alloc(), chain, gone_record(&rt, 1))?;
        assert_damaged(&rt, rt.alloc(), chain, [byte; 72])?;
    }
    Ok(())
}

#[test]
fn a_sector_that_two_chains_name_is_damage(rt: HostRuntime) -> Result<(), Fail> {
    let mut disk = small_disk(rt.alloc())?;
    let root = put(&rt, &mut disk, &[entry_record(&rt, 1, 100, 1)], 40)?;
    let twice = [NULL, root, NULL, NULL, root, NULL];
    let damage = Some(PageFault::Damaged(40));
    assert_same(
        &rt,
        "named twice",
        fault_of(rt.alloc(), &mut disk, twice),
        damage,
    );
    let once = only_chain(4, root);
    assert_same(
        &rt,
        "named once",
        fault_of(rt.alloc(), &mut disk, once),
        None,
    );
    disk.fail_reads(3, 1, 1);
    let fault = Some(PageFault::ReadFault);
    assert_same(
        &rt,
        "a failed read",
        fault_of(rt.alloc(), &mut disk, once),
        fault,
    );
    Ok(())
}
