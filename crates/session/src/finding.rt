//! How the pool that is on a disk is found.

ghost use Rattle.std.specs.Prelude.{◌≡◌, ◌≤◌, ℕ, Some, IfOk, IsErrOf};
ghost use Rattle.disk_model.specs.Images.{Image};
ghost use Rattle.session.specs.StageEntries.{IsOnDisk};
ghost use Rattle.session.specs.StageFinding.{Finds, FindCause, IsLeft};
ghost use Rattle.session.specs.declared.status.Status.{Status};

use crate::status::{Status, told};
use ddt_entry::KeyOf;
use disk_model::{Disk, crash_laws};
use pool_import::import;
use std::alloc::Global;
use table_state::Pool;

/// Imports the pool that is on the disk, and tells the status of a session that can't.
pub(crate) fn find_pool<D: Disk, K: KeyOf>(
    alloc: Global,
    disk: &mut D,
    keyer: &K,
) -> Result<Pool, Status>
    ensures sectors { (D.state disk.new).sectors ≡ (D.state disk.old).sectors }
    ensures on_disk { IfOk result (IsOnDisk (D.state disk.new) (K.keying keyer.now).tag) }
    ensures left { (image : Image) → (D.state disk.old).seen ≡ Some image → IsLeft (D.state disk.old) (D.state disk.new) image }
    ensures found { (image : Image) → (D.state disk.old).seen ≡ Some image → Finds (D.state disk.new) (K.keying keyer.now).tag image result }
    ensures cause { (status : Status) → IsErrOf result status → FindCause status (K.keying keyer.now).tag (D.state disk.old) (D.state disk.new) }
    ensures reads { (D.state disk.old).read_faults ≤ (D.state disk.new).read_faults }
    ensures writes { (D.state disk.old).write_faults ≤ (D.state disk.new).write_faults }
{
    crash_laws(disk);
    let found = import(alloc, disk, keyer);
    crash_laws(disk);
    match found {
        Ok(Some(pool)) => Ok(pool),
        Ok(None) => Err(Status::NoPool),
        Err(fault) => Err(told(fault)),
    }
}
