use ddt_entry::Sha256Key;
use disk_model::{Disk, MemDisk};
use pool_import::import;
use pool_model::SyncFault;
use std::alloc::Global;
use std::process::Abort;
use std::test::Fail;
use table_state::Pool;
use uber_ring::{Seal, open_slot, write_body};

/// Writes a seal into its slot of the ring, and opens it.
pub(crate) fn seal_in(rt: &impl Abort, disk: &mut MemDisk, seal: &Seal) -> Result<(), Fail> {
    assert!(rt; disk.sectors() >= 2048);
    write_body(disk, seal)?;
    open_slot(disk, (seal.group % 16) as u32)?;
    Ok(())
}

/// The pool that a disk with this seal has to import.
pub(crate) fn imported(
    rt: &impl Abort,
    alloc: Global,
    disk: &mut MemDisk,
    seal: &Seal,
) -> Result<Pool, Fail> {
    seal_in(rt, disk, seal)?;
    match import(alloc, disk, &Sha256Key) {
        Ok(Some(pool)) => Ok(pool),
        Ok(None) => Err("no pool was found".into()),
        Err(_) => Err("the import failed".into()),
    }
}

/// The fault of an import, where it fails.
pub(crate) fn fault_of(alloc: Global, disk: &mut MemDisk) -> Option<SyncFault> {
    import(alloc, disk, &Sha256Key).err()
}

/// The fault of the import of a disk with this seal, where it fails.
pub(crate) fn fault_under(
    rt: &impl Abort,
    alloc: Global,
    disk: &mut MemDisk,
    seal: &Seal,
) -> Result<Option<SyncFault>, Fail> {
    seal_in(rt, disk, seal)?;
    Ok(fault_of(alloc, disk))
}
