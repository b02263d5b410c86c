use crate::in_range::is_in_range;
use crate::silent_disk::SilentDisk;
use ddt_entry::Sha256Key;
use disk_model::Disk;
use pool_import::import;
use pool_model::{Closed, SyncFault};
use std::alloc::Global;
use std::marker::Model;
use std::process::Abort;
use std::test::Fail;
use table_state::{LAST_GROUP, Pool};
use txg_sync::{create, sync};

/// A pool in memory whose numbers are in their ranges.
#[derive(Drop)]
pub(crate) struct SoundPool {
    pub(crate) pool: Pool,
}

impl Model for SoundPool {
    ghost use Rattle.table_state.specs.Pools.{Held};
    ghost use Rattle.table_state.specs.Sound.{IsSound};

    ghost Value = { Held };

    ghost view = { λ sound. sound.pool };

    ghost invariant = { λ sound. IsSound sound.pool };
}

impl SoundPool {
    /// The pool once a group is synced, which has to be in its ranges. After a fault the pool in memory is gone.
    pub(crate) fn synced(
        self,
        rt: &impl Abort,
        alloc: Global,
        disk: &mut SilentDisk,
        closed: &Closed,
    ) -> Result<SoundPool, SyncFault> {
        let SoundPool { mut pool } = self;
        let Ok(within) = is_in_range(alloc, &pool, closed) else {
            return Err(SyncFault::Memory);
        };
        assert!(rt; within);
        assert!(rt; pool.sealed < LAST_GROUP);
        assert!(rt; pool.sectors <= disk.sectors());
        let number = sync(alloc, &mut pool, disk, closed)?;
        assert!(rt; number == pool.sealed);
        Ok(SoundPool { pool })
    }
}

/// Creates a pool on a disk of its size.
pub(crate) fn created(
    rt: &impl Abort,
    alloc: Global,
    disk: &mut SilentDisk,
) -> Result<SoundPool, Fail> {
    assert!(rt; disk.sectors() >= 2048);
    assert!(rt; disk.sectors() <= 1_000_000);
    let Ok(pool) = create(alloc, disk, 1) else {
        return Err("no pool was created".into());
    };
    Ok(SoundPool { pool })
}

/// The pool that a disk has to import.
pub(crate) fn imported(
    rt: &impl Abort,
    alloc: Global,
    disk: &mut SilentDisk,
) -> Result<SoundPool, Fail> {
    let Some(pool) = import(alloc, disk, &Sha256Key)? else {
        return Err("no pool was found".into());
    };
    Ok(SoundPool { pool })
}

/// The fault of a sync that had one.
pub(crate) fn fault_of(synced: Result<SoundPool, SyncFault>) -> Option<SyncFault> {
    match synced {
        Ok(_) => None,
        Err(fault) => Some(fault),
    }
}
