use crate::bodies::put;
use crate::comparing::{assert_same, assert_same_at};
use disk_model::{Disk, Failed, MemDisk};
use page_tree::{PageFault, PagePtr, RecordList, SectorList, read_chain, write_chain};
use std::alloc::{AllocError, Global};
use std::process::Abort;
use std::test::Fail;

/// Sixty records that differ in their first byte.
fn sixty() -> [[u8; 72]; 60] {
    let mut records = [[7u8; 72]; 60];
    'records: for i in 0..60 {
        records[i][0] = i as u8;
    }
    records
}

/// Writes these records at these places of a disk that has them.
fn write<D: Disk>(
    rt: &impl Abort,
    disk: &mut D,
    records: &[[u8; 72]],
    places: &[u64],
) -> Result<Option<PagePtr>, Failed> {
    assert!(rt; records.len() < 1000);
    assert!(rt; places.len() == (records.len() + 55) / 56);
    let sectors = disk.sectors();
    assert!(rt; places.iter().all(|place| *place < sectors));
    write_chain(disk, records, places)
}

/// Writes the sixty records on two pages.
fn write_sixty<D: Disk>(rt: &impl Abort, disk: &mut D) -> Result<PagePtr, Fail> {
    let root = write(rt, disk, &sixty(), &[40, 33])?;
    Ok(root.ok_or("a chain with records has a root")?)
}

/// The records of a chain, with its sectors, where it is read.
fn read<D: Disk>(
    alloc: Global,
    disk: &mut D,
    root: &Option<PagePtr>,
    named: &mut SectorList,
) -> Result<RecordList, PageFault> {
    let mut out = RecordList::new(alloc);
    let Ok(mut meter) = disk.meter() else {
        return Err(PageFault::ReadFault);
    };
    let answer = read_chain(disk, &mut meter, root, named, &mut out);
    disk.retire(meter);
    answer?;
    Ok(out)
}

/// Sees which records a chain has, and which sectors are named behind it.
fn assert_chain(
    rt: &impl Abort,
    alloc: Global,
    disk: &mut MemDisk,
    root: &Option<PagePtr>,
    named: &mut SectorList,
    sectors: &[u64],
    records: &[[u8; 72]],
) -> Result<(), PageFault> {
    let out = read(alloc, disk, root, named)?;
    assert_same(rt, "the sectors", named.as_slice(), sectors);
    assert_same(rt, "the records", out.as_slice(), records);
    Ok(())
}

/// Writes two chains, the second without records, and sees what is read of them.
fn read_both(
    rt: &impl Abort,
    alloc: Global,
    disk: &mut MemDisk,
    named: &mut SectorList,
) -> Result<(), Fail> {
    let sectors = [40, 33];
    let root = write_sixty(rt, disk)?;
    assert_same(rt, "the root's sector", root.sector, 40);
    assert_chain(rt, alloc, disk, &Some(root), named, &sectors, &sixty())?;
    let none = write(rt, disk, &[], &[])?;
    assert_same(rt, "the root of no records", none, None);
    assert_chain(rt, alloc, disk, &None, named, &sectors, &[])?;
    Ok(())
}

#[test]
fn a_chain_is_read_back_from_its_root(rt: HostRuntime) -> Result<(), Fail> {
    let alloc = rt.alloc();
    let mut disk = MemDisk::new(alloc, 64)?;
    let mut named = SectorList::new(alloc);
    read_both(&rt, alloc, &mut disk, &mut named)
}

/// Why a chain is not read, where this sector is named already.
fn fault_beside(
    alloc: Global,
    disk: &mut MemDisk,
    root: PagePtr,
    sector: u64,
) -> Result<Option<PageFault>, AllocError> {
    let mut named = SectorList::new(alloc);
    named.reserve(1)?;
    named.push(sector);
    Ok(read(alloc, disk, &Some(root), &mut named).err())
}

/// Why a chain is not read.
fn fault_of(alloc: Global, disk: &mut MemDisk, root: PagePtr) -> Option<PageFault> {
    let mut named = SectorList::new(alloc);
    read(alloc, disk, &Some(root), &mut named).err()
}

/// Sees that a chain is damaged whose second sector is named already.
fn name_twice(rt: &impl Abort, alloc: Global, disk: &mut MemDisk) -> Result<(), Fail> {
    let root = write_sixty(rt, disk)?;
    let fault = fault_beside(alloc, disk, root, 33)?;
    let damage = Some(PageFault::Damaged(33));
    assert_same(rt, "what is told", fault, damage);
    Ok(())
}

#[test]
fn a_chain_with_a_sector_that_is_named_already_is_damaged(rt: HostRuntime) -> Result<(), Fail> {
    let mut disk = MemDisk::new(rt.alloc(), 64)?;
    name_twice(&rt, rt.alloc(), &mut disk)
}

/// Sees that a chain is damaged whose root names this sector in place of its own.
fn assert_elsewhere(
    rt: &impl Abort,
    alloc: Global,
    disk: &mut MemDisk,
    root: PagePtr,
    sector: u64,
) {
    let digest = root.digest;
    let fault = fault_of(alloc, disk, PagePtr { sector, digest });
    let damage = Some(PageFault::Damaged(sector));
    assert_same_at(rt, "what is told of sector", sector, fault, damage);
}

/// Sees so of a sector in the ring, of one past the disk, and of one that holds something else.
fn look_elsewhere(rt: &impl Abort, alloc: Global, disk: &mut MemDisk) -> Result<(), Fail> {
    let root = write_sixty(rt, disk)?;
    for sector in [31, 64, 50] {
        assert_elsewhere(rt, alloc, disk, root, sector);
    }
    Ok(())
}

#[test]
fn a_chain_that_does_not_begin_at_its_root_is_damaged(rt: HostRuntime) -> Result<(), Fail> {
    let mut disk = MemDisk::new(rt.alloc(), 64)?;
    look_elsewhere(&rt, rt.alloc(), &mut disk)
}

/// Writes the second page over, and then fails the second read of the second meter from then on.
fn spoil(rt: &impl Abort, alloc: Global, disk: &mut MemDisk) -> Result<(), Fail> {
    let root = write_sixty(rt, disk)?;
    put(rt, disk, 33, &[0; 4096])?;
    let fault = fault_of(alloc, disk, root);
    let damage = Some(PageFault::Damaged(33));
    assert_same(rt, "what is told of the page", fault, damage);
    disk.fail_reads(2, 2, 2);
    let fault = fault_of(alloc, disk, root);
    let unread = Some(PageFault::ReadFault);
    assert_same(rt, "what is told of the read", fault, unread);
    Ok(())
}

#[test]
fn a_page_that_is_written_over_is_damaged_where_it_is_read(rt: HostRuntime) -> Result<(), Fail> {
    let mut disk = MemDisk::new(rt.alloc(), 64)?;
    spoil(&rt, rt.alloc(), &mut disk)
}
