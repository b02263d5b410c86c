//! How a new pool is made on a disk that has none.

ghost use Rattle.std.specs.Prelude.{◌≡◌, ◌≤◌, ℕ, Some, IfOk, IfSome, OnOk, IsErrOf};
ghost use Rattle.std.specs.Option.{option_map};
ghost use Rattle.disk_model.specs.Images.{Image};
ghost use Rattle.disk_model.specs.DiskLaws.{Stays};
ghost use Rattle.disk_model.specs.Crashes.{LeavesOnly, NothingPending};
ghost use Rattle.uber_ring.specs.Ring.{newest};
ghost use Rattle.table_state.specs.Flat.{image_version};
ghost use Rattle.txg_sync.specs.Creating.{HasNoSeal};
ghost use Rattle.session.specs.Entries.{IsLawfulSize};
ghost use Rattle.session.specs.StageEntries.{IsOnDisk};
ghost use Rattle.session.specs.StageMaking.{Makes, MakeCause};
ghost use Rattle.session.specs.declared.status.Status.{Status};

use crate::status::{Status, told};
use disk_model::{Disk, crash_laws};
use std::alloc::Global;
use table_state::{IMAGE_VERSION, MOST_SECTORS, Pool};
use txg_sync::create;
use uber_ring::{FEWEST_SECTORS, Seal, find};

/// Makes an empty pool of group 1, for a key function with this tag, which is sealed then. A size that isn't lawful
/// is told before any device is called.
pub(crate) fn make_pool<D: Disk>(alloc: Global, disk: &mut D, tag: u8) -> Result<Pool, Status>
    ensures sectors { (D.state disk.new).sectors ≡ (D.state disk.old).sectors }
    ensures on_disk { IfOk result (IsOnDisk (D.state disk.new) tag) }
    ensures first { IfOk result (λ pool. pool.group ≡ 1) }
    ensures lawful { OnOk result (IsLawfulSize (D.state disk.old).sectors) }
    ensures made { (image : Image) → (D.state disk.old).seen ≡ Some image → Makes (D.state disk.old) (D.state disk.new) tag image result }
    ensures sized { (n : ℕ) → IsErrOf result (Status.BadSize n) → disk.new ≡ disk.old }
    ensures cause { (status : Status) → IsErrOf result status → MakeCause status (D.state disk.old) (D.state disk.new) }
    ensures reads { (D.state disk.old).read_faults ≤ (D.state disk.new).read_faults }
    ensures writes { (D.state disk.old).write_faults ≤ (D.state disk.new).write_faults }
{
    crash_laws(disk);
    let sectors = disk.sectors();
    if sectors < FEWEST_SECTORS {
        return Err(Status::BadSize(sectors));
    }
    if sectors > MOST_SECTORS {
        return Err(Status::BadSize(sectors));
    }
    let found = newest_group(disk)?;
    if let Some(group) = found {
        return Err(Status::PoolExists(group));
    }
    seal_empty_pool(alloc, disk, tag)
}

/// The number of the newest sealed group on a disk, and `None` where no seal counts. Before it reads, all that was
/// written to the disk is made to last.
fn newest_group<D: Disk>(disk: &mut D) -> Result<Option<u64>, Status>
    requires lawful { IsLawfulSize (D.state disk.old).sectors }
    ensures sectors { (D.state disk.new).sectors ≡ (D.state disk.old).sectors }
    ensures stays { Stays (D.state disk.old).seen (D.state disk.new).seen }
    ensures found { IfOk result (λ found. IfSome (D.state disk.old).seen (λ image. found ≡ option_map (λ seal. seal.group) (newest image_version image))) }
    ensures durable { OnOk result (NothingPending (D.state disk.old).seen (D.state disk.new).may_leave) }
    ensures no_more { (c : Image) → (D.state disk.new).may_leave c → (D.state disk.old).may_leave c }
    ensures any_moment { LeavesOnly (D.state disk.old) (D.state disk.new) (D.state disk.old).may_leave }
    ensures sized { (n : ℕ) → IsErrOf result (Status.BadSize n) → ⊥ }
    ensures cause { (status : Status) → IsErrOf result status → MakeCause status (D.state disk.old) (D.state disk.new) }
    ensures reads { (D.state disk.old).read_faults ≤ (D.state disk.new).read_faults }
    ensures writes { (D.state disk.old).write_faults ≤ (D.state disk.new).write_faults }
{
    crash_laws(disk);
    let Ok(mut meter) = disk.meter() else {
        return Err(Status::WriteFault);
    };
    let Ok(()) = disk.barrier() else {
        disk.retire(meter);
        return Err(Status::WriteFault);
    };
    let answer = find(disk, &mut meter, IMAGE_VERSION);
    disk.retire(meter);
    let Ok(found) = answer else {
        return Err(Status::ReadFault);
    };
    Ok(group_of(found))
}

/// The group of a seal.
fn group_of(found: Option<Seal>) -> Option<u64>
    ensures { result ≡ option_map (λ seal. seal.group) found }
{
    match found {
        Some(seal) => Some(seal.group),
        None => None,
    }
}

/// Seals an empty pool on a disk on which no seal counts.
fn seal_empty_pool<D: Disk>(alloc: Global, disk: &mut D, tag: u8) -> Result<Pool, Status>
    requires enough { 2048 ≤ (D.state disk.old).sectors }
    requires few { (D.state disk.old).sectors ≤ 1000000 }
    requires none { HasNoSeal (D.state disk.old).seen }
    ensures sectors { (D.state disk.new).sectors ≡ (D.state disk.old).sectors }
    ensures on_disk { IfOk result (IsOnDisk (D.state disk.new) tag) }
    ensures first { IfOk result (λ pool. pool.group ≡ 1) }
    ensures lawful { OnOk result (IsLawfulSize (D.state disk.old).sectors) }
    ensures made { (image : Image) → (D.state disk.old).seen ≡ Some image → Makes (D.state disk.old) (D.state disk.new) tag image result }
    ensures sized { (n : ℕ) → IsErrOf result (Status.BadSize n) → ⊥ }
    ensures cause { (status : Status) → IsErrOf result status → MakeCause status (D.state disk.old) (D.state disk.new) }
    ensures reads { (D.state disk.old).read_faults ≤ (D.state disk.new).read_faults }
    ensures writes { (D.state disk.old).write_faults ≤ (D.state disk.new).write_faults }
{
    let _sectors = disk.sectors();
    crash_laws(disk);
    let made = create(alloc, disk, tag);
    crash_laws(disk);
    match made {
        Ok(pool) => Ok(pool),
        Err(fault) => Err(told(fault)),
    }
}
