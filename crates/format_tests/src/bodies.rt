//! A seal's body as it is written, sectors of a disk in memory, and the slots of its ring.

use disk_model::{Disk, Failed, MemDisk};
use std::alloc::Global;
use std::process::Abort;
use std::test::Fail;
use uber_ring::{Seal, close_slot, gate_open, open_slot, write_body};

/// The body that a ring's writer writes for this seal.
pub(crate) fn written_body(
    rt: &impl Abort,
    alloc: Global,
    seal: &Seal,
) -> Result<[u8; 4096], Fail> {
    let mut disk = MemDisk::new(alloc, 32)?;
    write_one(rt, &mut disk, seal)?;
    Ok(read_back(rt, &mut disk, seal.group % 16 * 2 + 1)?)
}

/// Writes a seal's body on a disk that has the ring.
pub(crate) fn write_one<D: Disk>(rt: &impl Abort, disk: &mut D, seal: &Seal) -> Result<(), Failed> {
    assert!(rt; disk.sectors() >= 32);
    write_body(disk, seal)
}

/// Writes a sector that the disk has.
pub(crate) fn put<D: Disk>(
    rt: &impl Abort,
    disk: &mut D,
    at: u64,
    bytes: &[u8; 4096],
) -> Result<(), Failed> {
    assert!(rt; at < disk.sectors());
    disk.write(at, bytes)
}

/// A sector that the disk has, as it is now.
pub(crate) fn read_back<D: Disk>(
    rt: &impl Abort,
    disk: &mut D,
    at: u64,
) -> Result<[u8; 4096], Failed> {
    assert!(rt; at < disk.sectors());
    let mut meter = disk.meter()?;
    let mut out = [0u8; 4096];
    let read = disk.read(&mut meter, at, &mut out);
    disk.retire(meter);
    read?;
    Ok(out)
}

/// Opens a slot of a disk that has the ring.
pub(crate) fn open<D: Disk>(rt: &impl Abort, disk: &mut D, slot: u32) -> Result<(), Failed> {
    assert!(rt; disk.sectors() >= 32);
    assert!(rt; slot < 16);
    open_slot(disk, slot)
}

/// Closes a slot of a disk that has the ring.
pub(crate) fn close<D: Disk>(
    rt: &impl Abort,
    disk: &mut D,
    slot: u32,
    was_open: bool,
) -> Result<(), Failed> {
    assert!(rt; disk.sectors() >= 32);
    assert!(rt; slot < 16);
    close_slot(disk, slot, was_open)
}

/// Whether a slot's gate reads open.
pub(crate) fn reads_open<D: Disk>(
    rt: &impl Abort,
    disk: &mut D,
    slot: u32,
) -> Result<bool, Failed> {
    assert!(rt; disk.sectors() >= 32);
    assert!(rt; slot < 16);
    let mut meter = disk.meter()?;
    let open = gate_open(disk, &mut meter, slot);
    disk.retire(meter);
    open
}
