ghost use Rattle.std.specs.Prelude.{◌≡◌, ◌≤◌, Some, OnOk, IsErrOf};
ghost use Rattle.disk_model.specs.Images.{Image};
ghost use Rattle.disk_model.specs.DiskLaws.{Stays};
ghost use Rattle.disk_model.specs.Crashes.{LeavesOnly, NothingPending};
ghost use Rattle.txg_sync.specs.SyncFaults.{SealAccounts};
ghost use Rattle.txg_sync.specs.Creating.{HasNoSeal};
ghost use Rattle.txg_sync.specs.Stages.{Begins, Beginning, LeavesFirstGate, LeavesUnbegun, Unbegun};
ghost use Rattle.txg_sync.specs.declared.fault.SealFault.TheVariants.{ReadFault, WriteFault, GateFault};

use crate::fault::SealFault;
use crate::fill::fill_slot;
use crate::take::take_slot;
use disk_model::{Disk, crash_laws};
use table_state::new_seal;
use uber_ring::{open_slot, seal_fits};

/// Seals the empty pool of group 1, for a key function with this tag, on a disk on which no seal counts. The
/// pool has the disk's sectors, 2,048 to 1,000,000. `WriteFault` comes before the gate is written, and `GateFault`
/// from then on. Takes no memory.
pub fn seal_new_pool<D: Disk>(disk: &mut D, tag: u8) -> Result<(), SealFault>
    requires enough { 2048 ≤ (D.state disk.old).sectors }
    requires few { (D.state disk.old).sectors ≤ 1000000 }
    requires none { HasNoSeal (D.state disk.old).seen }
    ensures sealed { OnOk result (Begins tag (D.state disk.old).seen (D.state disk.new).seen) }
    ensures durable { OnOk result (NothingPending (D.state disk.new).seen (D.state disk.new).may_leave) }
    ensures any_moment { (image : Image) → (D.state disk.old).seen ≡ Some image → NothingPending (Some image) (D.state disk.old).may_leave
        → LeavesOnly (D.state disk.old) (D.state disk.new) (Beginning tag image) }
    ensures at_the_gate { IsErrOf result GateFault → LeavesFirstGate tag (D.state disk.old).seen (D.state disk.new).seen }
    ensures before_the_gate { (image : Image) → (D.state disk.old).seen ≡ Some image
        → NothingPending (Some image) (D.state disk.old).may_leave → IsErrOf result WriteFault
        → LeavesOnly (D.state disk.old) (D.state disk.new) (Unbegun image) }
    ensures unbegun { IsErrOf result WriteFault → LeavesUnbegun (D.state disk.old).seen (D.state disk.new).seen }
    ensures unread { IsErrOf result ReadFault → Stays (D.state disk.old).seen (D.state disk.new).seen }
    ensures unread_crash { IsErrOf result ReadFault → (c : Image) → (D.state disk.new).may_leave c → (D.state disk.old).may_leave c }
    ensures accounts { SealAccounts (D.state disk.old) (D.state disk.new) result }
{
    crash_laws(disk);
    let seal = new_seal(tag, disk.sectors());
    seal_fits(seal);
    take_slot(disk, 1)?;
    let Ok(()) = fill_slot(disk, &seal) else {
        return Err(SealFault::WriteFault);
    };
    let Ok(()) = open_slot(disk, 1) else {
        return Err(SealFault::GateFault);
    };
    Ok(())
}
